//! A claim bound by rounds, by hand.

use crate::messages::message;
use line_reduce::point_at;
use poly_roots::value_at;
use std::process::Abort;
use sumcheck_verify::{Rounds, SumFault};
use test_circuits::number;

#[test]
fn binds_a_claim_by_rounds(rt: HostRuntime) {
    // 12 (1 - x) x + 2 x, of which the values at 0 and at 1 add to 2.
    let message = [number(0), number(14), -number(12)];
    let mut rounds = Rounds::start(number(2));
    assert!(rt; !rounds.waiting());
    assert_eq!(rt; rounds.take(message), Ok(()));
    assert!(rt; rounds.waiting());
    rounds.bind(number(3));
    assert_eq!(rt; rounds.claim(), -number(66));
    let fault = SumFault {
        round: 2,
        had: number(2),
        claim: -number(66),
    };
    assert_eq!(rt; rounds.take(message), Err(fault));
    assert_eq!(rt; rounds.claim(), -number(66));
}

/// Takes a message, binds the challenge, and sees the claim after it.
fn leads_to<R: Abort>(
    rt: &R,
    rounds: &mut Rounds,
    coefficients: [i32; 3],
    challenge: i32,
    claim: i32,
) {
    assert!(rt; !rounds.waiting());
    assert_eq!(rt; rounds.take(message(coefficients)), Ok(()));
    assert!(rt; rounds.waiting());
    rounds.bind(number(challenge));
    assert_eq!(rt; rounds.claim(), number(claim));
}

/// The copy of 5: the claim 10 at the output point 2, bound at 3 and at 4, and the line between these two at 6.
#[test]
fn leads_a_copy_to_its_last_claim(rt: HostRuntime) {
    let mut rounds = Rounds::start(number(10));
    leads_to(&rt, &mut rounds, [0, -5, 15], 3, 120);
    leads_to(&rt, &mut rounds, [120, -80, -40], 4, -840);
    let mut point = [number(0)];
    point_at(&[number(3)], &[number(4)], number(6), &mut point);
    assert_eq!(rt; point, [number(9)]);
    assert_eq!(rt; value_at(&[number(15), number(5)], number(6)), number(45));
}
