//! The operations of the field by hand, and its elements as bytes.

use crate::numbers::{P, element};
use field_ext::{Ext, Fp};

#[test]
fn multiplies_by_hand(rt: HostRuntime) {
    // By the rule i i = -1: (1 + 2i)(3 + 4i) = -5 + 10i, and products at the edges 0, 1, p - 1 and i.
    let rows = [
        ((1, 2), (3, 4), (P - 5, 10)),
        ((0, 0), (P - 1, P - 1), (0, 0)),
        ((1, 0), (P - 1, P - 2), (P - 1, P - 2)),
        ((0, 1), (0, 1), (P - 1, 0)),
        ((0, 1), (P - 1, 0), (0, P - 1)),
        ((P - 1, 0), (P - 1, 0), (1, 0)),
        ((P - 1, P - 1), (P - 1, P - 1), (0, 2)),
        ((P - 1, P - 1), (1, P - 1), (P - 2, 0)),
        ((0, P - 1), (P - 1, 1), (1, 1)),
        ((46341, 0), (46341, 0), (4634, 0)),
        ((65536, 1), (65536, P - 1), (3, 0)),
    ];
    for ((a, b), (c, d), (re, im)) in rows {
        assert!(rt;
            element(a, b) * element(c, d) == element(re, im),
            "({a} + {b}i)({c} + {d}i)"
        );
        assert!(rt;
            (element(c, d) * element(a, b)).equals(element(re, im)),
            "({c} + {d}i)({a} + {b}i)"
        );
    }
}

#[test]
fn adds_and_subtracts_by_hand(rt: HostRuntime) {
    let rows = [
        // x, y, x + y, x - y
        ((1, 2), (3, 4), (4, 6), (P - 2, P - 2)),
        ((0, 0), (1, P - 1), (1, P - 1), (P - 1, 1)),
        ((P - 1, P - 1), (P - 1, 1), (P - 2, 0), (0, P - 2)),
        ((5, 0), (0, 5), (5, 5), (5, P - 5)),
    ];
    for ((a, b), (c, d), (re, im), (less_re, less_im)) in rows {
        let (x, y) = (element(a, b), element(c, d));
        assert!(rt; x + y == element(re, im), "({a} + {b}i) + ({c} + {d}i)");
        assert!(rt;
            x - y == element(less_re, less_im),
            "({a} + {b}i) - ({c} + {d}i)"
        );
        assert!(rt; x + -y == x.sub(y), "({a} + {b}i) + -({c} + {d}i)");
    }
    assert!(rt; Ext::embed(Fp::reduce(7)) == element(7, 0));
    assert!(rt; Ext::zero() == element(0, 0) && Ext::one() == element(1, 0));
    assert!(rt; !element(7, 0).equals(element(7, 1)) && !element(7, 0).equals(element(8, 0)));
}

#[test]
fn reduces_numbers_of_64_bits(rt: HostRuntime) {
    // 2^31 is 1 modulo p, so 2^64 - 1 is 4 - 1.
    let rows = [
        (0, 0),
        (P - 1, P - 1),
        (P, 0),
        (P + 1, 1),
        (2 * P, 0),
        (1 << 62, 1),
        (u64::MAX, 3),
    ];
    for (n, want) in rows {
        assert_eq!(rt; Fp::reduce(n).value() as u64, want, "{n}");
    }
    assert!(rt; Fp::of(2147483647).is_none() && Fp::of(u32::MAX).is_none());
    assert!(rt; Fp::of(2147483646).is_some());
}

#[test]
fn writes_and_reads_eight_bytes(rt: HostRuntime) {
    let product = element(1, 2) * element(3, 4);
    assert_eq!(rt; product.to_bytes(), [0xfa, 0xff, 0xff, 0x7f, 0x0a, 0, 0, 0]);
    let rows = [
        ([0xfa, 0xff, 0xff, 0x7f, 0x0a, 0, 0, 0], Some(product)),
        ([0, 0, 0, 0, 0, 0, 0, 0], Some(Ext::zero())),
        (
            [1, 2, 3, 4, 5, 6, 7, 8],
            Some(element(0x04030201, 0x08070605)),
        ),
        (
            [0xfe, 0xff, 0xff, 0x7f, 0xfe, 0xff, 0xff, 0x7f],
            Some(element(P - 1, P - 1)),
        ),
        ([0xff, 0xff, 0xff, 0x7f, 0, 0, 0, 0], None),
        ([0, 0, 0, 0, 0xff, 0xff, 0xff, 0x7f], None),
        ([0, 0, 0, 0x80, 0, 0, 0, 0], None),
        ([0, 0, 0, 0, 0xff, 0xff, 0xff, 0xff], None),
    ];
    for (bytes, want) in rows {
        assert!(rt; Ext::from_bytes(&bytes) == want, "{bytes:?}");
    }
}
