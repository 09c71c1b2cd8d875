//! One layer's prover in plain loops over numbers, which nothing is proved of but that it is safe.
//!
//! Two phases of dense tables, lazy sums, folding in place: the measure for the proved prover.

ghost use Rattle.std.specs.Prelude.{◌≤◌, ◌*◌, length};

use circuit_core::{CircuitGate, Kind};

const P: u64 = 2_147_483_647;

const PRIME: u32 = 2_147_483_647;

/// An element of K by its halves.
#[derive(Clone, Copy)]
pub struct Plain {
    pub re: u32,
    pub im: u32,
}

pub const ZERO: Plain = Plain { re: 0, im: 0 };

/// The tables that the rounds of a phase fold.
#[derive(Drop)]
pub struct PlainTables {
    pub values: Vec<Plain>,
    pub scales: Vec<Plain>,
    pub shifts: Vec<Plain>,
}

/// The buffers of a layer.
#[derive(Drop)]
pub struct PlainBuffers {
    pub point_equality: Vec<Plain>,
    pub left_equality: Vec<Plain>,
    pub tables: PlainTables,
}

fn reduce(x: u64) -> u32 {
    let high = ((x >> 31) & 0xffff_ffff) as u32;
    let high = high.min(high.wrapping_sub(PRIME));
    let sum = ((x & P) as u32).wrapping_add(high);
    sum.min(sum.wrapping_sub(PRIME))
}

fn sub_half(a: u32, b: u32) -> u32 {
    let difference = a.wrapping_sub(b);
    difference.min(difference.wrapping_add(PRIME))
}

fn add_half(a: u32, b: u32) -> u32 {
    let sum = a.wrapping_add(b);
    sum.min(sum.wrapping_sub(PRIME))
}

fn add(a: Plain, b: Plain) -> Plain {
    Plain {
        re: add_half(a.re, b.re),
        im: add_half(a.im, b.im),
    }
}

fn sub(a: Plain, b: Plain) -> Plain {
    Plain {
        re: sub_half(a.re, b.re),
        im: sub_half(a.im, b.im),
    }
}

fn real(a: Plain, b: Plain) -> u64 {
    let negated = P.wrapping_sub(b.im as u64);
    let first = (a.re as u64).wrapping_mul(b.re as u64);
    first.wrapping_add((a.im as u64).wrapping_mul(negated))
}

fn imaginary(a: Plain, b: Plain) -> u64 {
    let first = (a.re as u64).wrapping_mul(b.im as u64);
    first.wrapping_add((a.im as u64).wrapping_mul(b.re as u64))
}

fn mul(a: Plain, b: Plain) -> Plain {
    Plain {
        re: reduce(real(a, b)),
        im: reduce(imaginary(a, b)),
    }
}

fn lazy(x: u64) -> u64 {
    (x & P).wrapping_add(x >> 31)
}

/// Sums of products that are reduced at the end.
#[derive(Clone, Copy)]
struct Sum {
    re: u64,
    im: u64,
}

impl Sum {
    fn with(self, a: Plain, b: Plain, c: Plain) -> Sum {
        let re = lazy(real(a, b)).wrapping_add(c.re as u64);
        let im = lazy(imaginary(a, b)).wrapping_add(c.im as u64);
        Sum {
            re: self.re.wrapping_add(re),
            im: self.im.wrapping_add(im),
        }
    }

    fn reduced(self) -> Plain {
        Plain {
            re: (self.re % P) as u32,
            im: (self.im % P) as u32,
        }
    }
}

fn pair_sums(table: &[Plain], scales: &[Plain], shifts: &[Plain], half: usize) -> [Plain; 3]
    requires table { 2 * half ≤ length table.now }
    requires scales { 2 * half ≤ length scales.now }
    requires shifts { 2 * half ≤ length shifts.now }
{
    let none = Sum { re: 0, im: 0 };
    let (mut at_zero, mut at_one, mut square) = (none, none, none);
    for j in 0..half {
        let (low, high) = (table[2 * j], table[2 * j + 1]);
        let (scale_low, scale_high) = (scales[2 * j], scales[2 * j + 1]);
        at_zero = at_zero.with(low, scale_low, shifts[2 * j]);
        at_one = at_one.with(high, scale_high, shifts[2 * j + 1]);
        square = square.with(sub(high, low), sub(scale_high, scale_low), ZERO);
    }
    let (constant, square) = (at_zero.reduced(), square.reduced());
    let linear = sub(sub(at_one.reduced(), constant), square);
    [constant, linear, square]
}

fn fold(values: &mut [Plain], half: usize, r: Plain)
    requires { 2 * half ≤ length values.old }
{
    for j in 0..half {
        let (low, high) = (values[2 * j], values[2 * j + 1]);
        values[j] = add(low, mul(r, sub(high, low)));
    }
}

fn extend(table: &mut [Plain], size: usize, r: Plain)
    requires { 2 * size ≤ length table.old }
{
    for i in 0..size {
        let high = mul(table[i], r);
        table[size + i] = high;
        table[i] = sub(table[i], high);
    }
}

fn equality_table(point: &[Plain], table: &mut [Plain]) {
    if let Some(first) = table.first_mut() {
        *first = Plain { re: 1, im: 0 };
    }
    let mut size = 1usize;
    for r in point {
        if size <= table.len() / 2 {
            extend(table, size, *r);
            size *= 2;
        }
    }
}

fn clear(table: &mut [Plain]) {
    for value in table.iter_mut() {
        *value = ZERO;
    }
}

fn copy(values: &[Plain], table: &mut [Plain]) {
    for i in 0..values.len().min(table.len()) {
        table[i] = values[i];
    }
}

fn value_at(table: &[Plain], i: u32) -> Plain {
    match table.get(i as usize) {
        Some(value) => *value,
        None => ZERO,
    }
}

fn add_to(table: &mut [Plain], i: u32, value: Plain) {
    if (i as usize) < table.len() {
        table[i as usize] = add(table[i as usize], value);
    }
}

fn send(
    scales: &mut [Plain],
    shifts: &mut [Plain],
    kind: Kind,
    place: u32,
    factor: Plain,
    product: Plain,
) {
    match kind {
        Kind::Mul => add_to(scales, place, product),
        Kind::Add => {
            add_to(scales, place, factor);
            add_to(shifts, place, product);
        }
    }
}

fn gather_left(gates: &[CircuitGate], values: &[Plain], buffers: &mut PlainBuffers) {
    clear(&mut buffers.tables.scales);
    clear(&mut buffers.tables.shifts);
    for (gate, factor) in gates.iter().zip(buffers.point_equality.as_slice()) {
        let product = mul(*factor, value_at(values, gate.right));
        let tables = &mut buffers.tables;
        let (scales, shifts) = (&mut tables.scales, &mut tables.shifts);
        send(scales, shifts, gate.kind, gate.left, *factor, product);
    }
}

fn gather_right(gates: &[CircuitGate], bound: Plain, buffers: &mut PlainBuffers) {
    clear(&mut buffers.tables.scales);
    clear(&mut buffers.tables.shifts);
    for (gate, factor) in gates.iter().zip(buffers.point_equality.as_slice()) {
        let factor = mul(*factor, value_at(&buffers.left_equality, gate.left));
        let tables = &mut buffers.tables;
        let (scales, shifts) = (&mut tables.scales, &mut tables.shifts);
        send(
            scales,
            shifts,
            gate.kind,
            gate.right,
            factor,
            mul(factor, bound),
        );
    }
}

fn rounds(tables: &mut PlainTables, challenges: &[Plain]) -> u32 {
    let mut seen = 0u32;
    let mut half = tables.values.len() / 2;
    for r in challenges {
        half = half.min(tables.values.len() / 2);
        half = half
            .min(tables.scales.len() / 2)
            .min(tables.shifts.len() / 2);
        let message = pair_sums(&tables.values, &tables.scales, &tables.shifts, half);
        seen = seen.wrapping_add(message[0].re ^ message[1].im ^ message[2].re);
        fold(&mut tables.values, half, *r);
        fold(&mut tables.scales, half, *r);
        fold(&mut tables.shifts, half, *r);
        half /= 2;
    }
    seen
}

/// The messages of a layer, of which a digest is left.
pub fn prove_layer(
    gates: &[CircuitGate],
    values: &[Plain],
    point: &[Plain],
    left: &[Plain],
    right: &[Plain],
    buffers: &mut PlainBuffers,
) -> u32 {
    equality_table(point, &mut buffers.point_equality);
    copy(values, &mut buffers.tables.values);
    gather_left(gates, values, buffers);
    let seen = rounds(&mut buffers.tables, left);
    let bound = value_at(&buffers.tables.values, 0);
    equality_table(left, &mut buffers.left_equality);
    copy(values, &mut buffers.tables.values);
    gather_right(gates, bound, buffers);
    seen.wrapping_add(rounds(&mut buffers.tables, right))
}
