//! Lists of elements. Operators work in the buffer of a list that isn't used again.

ghost use Rattle.std.specs.Prelude.{◌≡◌, ◌≤◌, map, length, fold};
ghost use Rattle.std.specs.List.{zip};
ghost use Rattle.field_ext.specs.Field.{of, add_f, sub_f, mul_f, neg_f};
ghost use Rattle.arr_eval.specs.Numbers.{element, element_wise, sum_of, dot_of};

use field_ext::Fp;

/// The sums of two lists, place by place.
pub fn sums(left: Vec<Fp>, right: &[Fp]) -> Vec<Fp>
    ensures { result.items ≡ element_wise add_f left.items right.now }
{
    let mut left = left;
    left.truncate(right.len());
    add_each(&mut left, right);
    left
}

/// The differences of two lists, place by place.
pub fn differences(left: Vec<Fp>, right: &[Fp]) -> Vec<Fp>
    ensures { result.items ≡ element_wise sub_f left.items right.now }
{
    let mut left = left;
    left.truncate(right.len());
    subtract_each(&mut left, right);
    left
}

/// The products of two lists, place by place.
pub fn products(left: Vec<Fp>, right: &[Fp]) -> Vec<Fp>
    ensures { result.items ≡ element_wise mul_f left.items right.now }
{
    let mut left = left;
    left.truncate(right.len());
    multiply_each(&mut left, right);
    left
}

/// The negations of a list.
pub fn opposites(items: Vec<Fp>) -> Vec<Fp>
    ensures { result.items ≡ map neg_f items.items }
{
    let mut items = items;
    negate_each(&mut items);
    items
}

/// The products of a list with one element.
pub fn scaled(scale: Fp, items: Vec<Fp>) -> Vec<Fp>
    ensures { result.items ≡ map (mul_f scale) items.items }
{
    let mut items = items;
    scale_each(scale, &mut items);
    items
}

fn add_each(left: &mut [Fp], right: &[Fp])
    requires { length left.old ≤ length right.now }
    ensures { left.new ≡ element_wise add_f left.old right.now }
{
    'each: for i in 0..left.len() {
        left[i] = left[i] + right[i];
    }
}

fn subtract_each(left: &mut [Fp], right: &[Fp])
    requires { length left.old ≤ length right.now }
    ensures { left.new ≡ element_wise sub_f left.old right.now }
{
    'each: for i in 0..left.len() {
        left[i] = left[i] - right[i];
    }
}

fn multiply_each(left: &mut [Fp], right: &[Fp])
    requires { length left.old ≤ length right.now }
    ensures { left.new ≡ element_wise mul_f left.old right.now }
{
    'each: for i in 0..left.len() {
        left[i] = left[i] * right[i];
    }
}

fn negate_each(items: &mut [Fp])
    ensures { items.new ≡ map neg_f items.old }
{
    'each: for i in 0..items.len() {
        items[i] = -items[i];
    }
}

fn scale_each(scale: Fp, items: &mut [Fp])
    ensures { items.new ≡ map (mul_f scale) items.old }
{
    'each: for i in 0..items.len() {
        items[i] = scale * items[i];
    }
}

/// The sum of a list, which is zero where there is nothing.
pub fn sum(items: &[Fp]) -> Fp
    ensures { result ≡ sum_of items.now }
{
    items.iter().fold(Fp::zero(), |total, a| total + *a)
}

/// The dot product of two lists: the sum of their products, place by place.
pub fn dot(left: &[Fp], right: &[Fp]) -> Fp
    ensures { result ≡ dot_of left.now right.now }
{
    running_dot(left, right)
}

/// A dot product as a total that grows place by place.
fn running_dot(left: &[Fp], right: &[Fp]) -> Fp
    ensures { result ≡ fold (λ total pair. add_f total (mul_f pair.0 pair.1)) (of 0)
        (zip left.now right.now) }
{
    left.iter()
        .zip(right.iter())
        .fold(Fp::zero(), |total, (a, b)| total + *a * *b)
}

/// The element at a place, or zero past the end.
pub fn element_at(items: &[Fp], place: usize) -> Fp
    ensures { result ≡ element items.now place }
{
    match items.get(place) {
        Some(found) => *found,
        None => Fp::zero(),
    }
}
