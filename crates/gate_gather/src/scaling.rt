//! Sums of factors made into the tables of the second phase.

ghost use Rattle.std.specs.Prelude.{◌≡◌, ◌≤◌, ◌<◌, ◌+◌, ℕ, length, slice_index_or};
ghost use Rattle.field_ext.specs.Field.{add_k, mul_k, zero_k};
ghost use Rattle.gate_gather.specs.Scaling.{IsMade};

use crate::zeros::is_zero;
use field_ext::Ext;

/// How many places are looked at together.
const BLOCK: usize = 2048;

/// Makes the tables of the second phase from the sums of factors, those of multiply gates in `scales` and those of add gates in
/// `shifts`: where a gate adds it gives its factor to the scales and the factor times the left operand's value to the shifts, and
/// where it multiplies the product to the scales. A block of places to which no gate of one kind is sent costs half the products.
pub(crate) fn scale_by(value: Ext, scales: &mut [Ext], shifts: &mut [Ext])
    requires { length shifts.old ≡ length scales.old }
    ensures scales { (x : ℕ) → x < length scales.old
        → slice_index_or scales.new x zero_k ≡ add_k (slice_index_or shifts.old x zero_k)
        (mul_k value (slice_index_or scales.old x zero_k)) }
    ensures shifts { (x : ℕ) → x < length scales.old
        → slice_index_or shifts.new x zero_k ≡ mul_k value (slice_index_or shifts.old x zero_k) }
{
    let count = scales.len();
    for number in 0..count / BLOCK {
        scale_block(value, scales, shifts, BLOCK * number, BLOCK);
    }
    scale_block(value, scales, shifts, count - count % BLOCK, count % BLOCK);
}

/// The same for `count` places from `from` on.
fn scale_block(value: Ext, scales: &mut [Ext], shifts: &mut [Ext], from: usize, count: usize)
    requires same { length shifts.old ≡ length scales.old }
    requires within { from + count ≤ length scales.old }
    ensures scales { IsMade from count scales.old scales.new (λ x. add_k
        (slice_index_or shifts.old x zero_k) (mul_k value (slice_index_or scales.old x zero_k))) }
    ensures shifts { IsMade from count shifts.old shifts.new
        (λ x. mul_k value (slice_index_or shifts.old x zero_k)) }
{
    if is_zero(shifts, from, count) {
        scale_muls(value, scales, from, count);
    } else if is_zero(scales, from, count) {
        scale_adds(value, scales, shifts, from, count);
    } else {
        scale_both(value, scales, shifts, from, count);
    }
}

/// Scales the sums of multiply gates, where no gate adds.
fn scale_muls(value: Ext, scales: &mut [Ext], from: usize, count: usize)
    requires { from + count ≤ length scales.old }
    ensures { IsMade from count scales.old scales.new
        (λ x. mul_k value (slice_index_or scales.old x zero_k)) }
{
    if is_zero(scales, from, count) {
        return;
    }
    for i in from..from + count {
        scales[i] = value * scales[i];
    }
}

/// Moves the sums of add gates, where no gate multiplies.
fn scale_adds(value: Ext, scales: &mut [Ext], shifts: &mut [Ext], from: usize, count: usize)
    requires same { length shifts.old ≡ length scales.old }
    requires within { from + count ≤ length scales.old }
    ensures scales { IsMade from count scales.old scales.new
        (λ x. slice_index_or shifts.old x zero_k) }
    ensures shifts { IsMade from count shifts.old shifts.new
        (λ x. mul_k value (slice_index_or shifts.old x zero_k)) }
{
    for i in from..from + count {
        let add = shifts[i];
        scales[i] = add;
        shifts[i] = value * add;
    }
}

/// Scales the sums of both kinds.
fn scale_both(value: Ext, scales: &mut [Ext], shifts: &mut [Ext], from: usize, count: usize)
    requires same { length shifts.old ≡ length scales.old }
    requires within { from + count ≤ length scales.old }
    ensures scales { IsMade from count scales.old scales.new (λ x. add_k
        (slice_index_or shifts.old x zero_k) (mul_k value (slice_index_or scales.old x zero_k))) }
    ensures shifts { IsMade from count shifts.old shifts.new
        (λ x. mul_k value (slice_index_or shifts.old x zero_k)) }
{
    for i in from..from + count {
        let add = shifts[i];
        let mul = scales[i];
        scales[i] = add + value * mul;
        shifts[i] = value * add;
    }
}
