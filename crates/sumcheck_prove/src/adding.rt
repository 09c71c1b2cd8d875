//! Sums of messages.

ghost use Rattle.std.specs.Prelude.{◌≡◌, ◌<◌, ◌+◌, [], length};
ghost use Rattle.field_ext.specs.Field.{K, k_ops, zero_k, add_k};
ghost use Rattle.field_ext.specs.Polynomial.{coefficients, value_at};
ghost use Rattle.round_tables.specs.LayerSum.{next_poly};

use crate::entry::Entry;
use field_ext::Ext;
use round_tables::GateTables;

/// The message of no piece.
pub(crate) fn no_message() -> [Ext; 3]
    ensures three { length result ≡ 3 }
    ensures value { (e : K) → value_at k_ops result e ≡ zero_k }
{
    let zero = Ext::zero();
    [zero, zero, zero]
}

/// What two messages add to.
pub(crate) fn plus(total: [Ext; 3], message: [Ext; 3]) -> [Ext; 3]
    requires total { length total ≡ 3 }
    requires message { length message ≡ 3 }
    ensures three { length result ≡ 3 }
    ensures value { (e : K) → value_at k_ops result e
        ≡ add_k (value_at k_ops total e) (value_at k_ops message e) }
{
    [
        total[0] + message[0],
        total[1] + message[1],
        total[2] + message[2],
    ]
}

/// The coefficients of 1, X and X² of the next round's polynomial, where a round is left, as `round` gives them, summed piece by piece on
/// the calling thread, which passes the entry with each. It takes no memory.
pub fn round_alone<E: Entry>(tables: &GateTables<'_>, entry: &E) -> [Ext; 3]
    requires here { tables.now.lent ≡ [] }
    requires left { length tables.now.bound < tables.now.k + tables.now.k }
    ensures { result ≡ coefficients k_ops 3 (next_poly tables.now) }
{
    let mut total = no_message();
    for piece in 0..tables.pieces() {
        entry.pass(piece);
        total = plus(total, tables.piece_sum(piece));
    }
    total
}
