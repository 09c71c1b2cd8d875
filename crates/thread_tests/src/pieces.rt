//! Work on pieces by several workers, who pass a gate.

use phase_run::{PieceWork, run};
use std::alloc::{AllocError, Global};
use std::sync::atomic::{AtomicU64, Ordering};
use std::test::Fail;
use test_gates::{CountingGate, MeetingGate};

/// Two pieces, which give 10 and 11.
#[derive(Drop)]
struct FromTen;

impl PieceWork for FromTen {
    ghost use Rattle.std.specs.Prelude.{◌+◌};

    type Out = u64;

    ghost out_of = { λ work k. 10 + k };

    ghost pieces = { λ work. 2 };

    fn work(&self, _alloc: Global, k: u32) -> Result<u64, AllocError> {
        Ok(10 + u64::from(k))
    }
}

/// Three pieces, of which the first finds no memory.
#[derive(Drop)]
struct FailsAtFirst;

impl PieceWork for FailsAtFirst {
    type Out = u32;

    ghost out_of = { λ work k. k };

    ghost pieces = { λ work. 3 };

    fn work(&self, _alloc: Global, k: u32) -> Result<u32, AllocError> {
        if k == 0 {
            return Err(AllocError);
        }
        Ok(k)
    }
}

#[test]
fn works_two_pieces_side_by_side(rt: HostRuntime) -> Result<(), Fail> {
    let gate = MeetingGate::new(0);
    let outputs = run(&rt, rt.alloc(), 2, 2, &FromTen, &gate)?;
    assert!(&rt; outputs.as_slice() == [10, 11].as_slice());
    assert!(&rt; !gate.is_raised());
    Ok(())
}

#[test]
fn goes_on_where_one_worker_finds_no_memory(rt: HostRuntime) -> Result<(), Fail> {
    for workers in [1, 2] {
        let gate = CountingGate::new(0);
        match run(&rt, rt.alloc(), 3, workers, &FailsAtFirst, &gate) {
            Ok(_) => return Err(Fail::new("found memory")),
            Err(AllocError) => (),
        }
        assert_eq!(&rt; gate.entries(), if workers == 1 { 1 } else { 3 });
    }
    Ok(())
}

/// Eight pieces, of which that of number 3 finds no memory; each other one leaves its mark, the bit of its number.
#[derive(Drop)]
struct FailsAtThree {
    marks: AtomicU64,
}

impl PieceWork for FailsAtThree {
    type Out = u32;

    ghost out_of = { λ work k. k };

    ghost pieces = { λ work. 8 };

    fn work(&self, _alloc: Global, k: u32) -> Result<u32, AllocError> {
        if k == 3 {
            return Err(AllocError);
        }
        self.marks.fetch_add(1 << k, Ordering::SeqCst);
        Ok(k)
    }
}

/// One worker works the pieces before the one that finds no memory, and claims none after it.
#[test]
fn works_no_piece_past_one_that_finds_no_memory(rt: HostRuntime) -> Result<(), Fail> {
    let gate = CountingGate::new(0);
    let work = FailsAtThree {
        marks: AtomicU64::new(0),
    };
    match run(&rt, rt.alloc(), 8, 1, &work, &gate) {
        Ok(_) => return Err(Fail::new("found memory")),
        Err(AllocError) => (),
    }
    assert_eq!(&rt; work.marks.load(Ordering::SeqCst), 0b111);
    assert_eq!(&rt; gate.entries(), 4);
    assert_eq!(&rt; gate.greatest(), 3);
    Ok(())
}
