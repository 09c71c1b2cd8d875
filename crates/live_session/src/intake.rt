//! Bytes as they are fed, and the elements that they begin with.

ghost use Rattle.std.specs.Prelude.{◌≡◌, ◌≤◌, ◌<◌, ◌+◌, ◌-◌, ◌*◌, ◌^◌, ◌++◌, [], true, false, slice_index_or, length, take, drop, IfOk, MatchOption};
ghost use Rattle.live_session.specs.Elements.{element_of, has_element, leading};

use field_ext::Ext;
use std::alloc::{AllocError, Global};
use std::marker::Model;

/// Buffers for so many elements and for their bytes, with what was fed of them. Contracts see the bytes.
#[derive(Drop)]
pub(crate) struct Intake {
    bytes: Vec<u8>,
    count: usize,
    elements: Vec<Ext>,
    good: usize,
}

impl Model for Intake {
    ghost use Rattle.std.specs.Prelude.{length, take};
    ghost use Rattle.live_session.specs.Intake.{Fed, IsIntake};

    ghost Value = { Fed };

    ghost view = { λ a. record {
      most = length a.elements.items;
      capacity = length a.bytes.items;
      bytes = take a.count a.bytes.items;
    } };

    ghost invariant = { λ a. IsIntake a.count a.good a.bytes.items a.elements.items };
}

impl Intake {
    /// Buffers for so many elements, and for so many bytes after theirs. Err only where no memory is found; no other call
    /// takes any.
    pub(crate) fn new(alloc: Global, elements: usize, more: usize) -> Result<Intake, AllocError>
        requires elements { elements < 2 ^ 32 }
        requires more { more < 2 ^ 32 }
        ensures { IfOk result (λ fed. fed
            ≡ record { most = elements; capacity = 8 * elements + more; bytes = [] }) }
    {
        let bytes = vec![in alloc; 0u8; 8 * elements + more]?;
        let elements = vec![in alloc; Ext::zero(); elements]?;
        Ok(Intake {
            bytes,
            count: 0,
            elements,
            good: 0,
        })
    }

    /// Takes more bytes, as far as the buffer goes.
    pub(crate) fn feed(&mut self, more: &[u8])
        ensures { self.new
            ≡ record self.old { bytes = take self.old.capacity (self.old.bytes ++ more.now) } }
    {
        let left = self.bytes.len() - self.count;
        let (kept, _) = more.split_at(left.min(more.len()));
        put(&mut self.bytes, self.count, kept);
        self.count += kept.len();
        self.good = read_elements(&self.bytes[..self.count], &mut self.elements, self.good);
    }

    /// The elements that the bytes begin with.
    pub(crate) fn elements(&self) -> &[Ext]
        ensures { result.now ≡ leading self.now.most self.now.bytes }
    {
        &self.elements[..self.good]
    }

    /// A byte that was taken, or 0 where none was.
    pub(crate) fn byte(&self, at: usize) -> u8
        ensures { result ≡ slice_index_or self.now.bytes at 0 }
    {
        if at < self.count { self.bytes[at] } else { 0 }
    }

    /// How many bytes were taken.
    pub(crate) fn len(&self) -> usize
        ensures { result ≡ length self.now.bytes }
    {
        self.count
    }
}

/// Writes bytes after the first `at`.
fn put(bytes: &mut [u8], at: usize, more: &[u8])
    requires { at + length more.now ≤ length bytes.old }
    ensures { take (at + length more.now) bytes.new ≡ take at bytes.old ++ more.now }
{
    bytes[at..at + more.len()].copy_from_slice(more);
}

/// Reads on from element `good`, up to the first that isn't there or not in range, and gives its number.
fn read_elements(bytes: &[u8], elements: &mut [Ext], good: usize) -> usize
    requires known { good ≤ length elements.old }
    requires small { 8 * length elements.old < 2 ^ 64 }
    requires read { leading (length elements.old) bytes.now ≡ take good elements.old
        ++ leading (length elements.old - good) (drop (8 * good) bytes.now) }
    ensures known { result ≤ length elements.new }
    ensures read { take result elements.new ≡ leading (length elements.old) bytes.now }
{
    for i in good..elements.len() {
        match element_at(bytes, i) {
            Some(element) => elements[i] = element,
            None => return i,
        }
    }
    elements.len()
}

/// The element with this number, where it is there and in range.
fn element_at(bytes: &[u8], i: usize) -> Option<Ext>
    requires { 8 * i + 8 < 2 ^ 64 }
    ensures { MatchOption result (has_element (drop (8 * i) bytes.now) ≡ false)
        (λ x. (has_element (drop (8 * i) bytes.now) ≡ true)
        × (x ≡ element_of (take 8 (drop (8 * i) bytes.now)))) }
{
    if bytes.len() < 8 * i + 8 {
        return None;
    }
    Ext::from_bytes(bytes[8 * i..].first_chunk()?)
}
