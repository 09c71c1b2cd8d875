//! Claims of parts, and workers that change them in place.

ghost use Rattle.std.specs.Prelude.{◌≡◌, ◌+◌, false, None};
ghost use Rattle.chunk_board.specs.PartViews.{IsOfParts, IsFresh};

use chunk_board::{PartBoard, PartClaimer, Parts};
use phase_run::{PartWork, run_parts};
use std::process::Abort;
use std::test::Fail;
use test_gates::{CountingGate, MeetingGate};

/// One claimer draws the first part, puts another back, and closes.
fn draws_one<R: Abort>(rt: &R, board: PartBoard<u32>, mut claimer: PartClaimer<u32>)
    requires board { IsOfParts board claimer }
    requires fresh { IsFresh claimer }
    requires whole { claimer.shares ≡ board.shares }
{
    assert_eq!(rt; board.count(), 2);
    assert!(rt; claimer.holding().is_none());
    if let Some((k, part)) = board.claim_part(&mut claimer) {
        assert_eq!(rt; k, 0);
        assert_eq!(rt; part, 7);
        assert!(rt; claimer.holding() == Some(0));
        board.put_back(&mut claimer, k, 9);
        let Parts { all, parts } = board.close(claimer);
        assert!(rt; !all);
        assert!(rt; parts.as_slice() == [9, 8].as_slice());
        return;
    }
    assert!(rt; false);
}

#[test]
fn gives_what_was_put_back_and_what_was_not_drawn(rt: HostRuntime) -> Result<(), Fail> {
    let parts = Vec::from_slice(rt.alloc(), &[7, 8])?;
    let Ok((board, claimer)) = PartBoard::new(rt.alloc(), parts, 1) else {
        return Err(Fail::new("no memory"));
    };
    draws_one(&rt, board, claimer);
    Ok(())
}

/// Two claimers draw a part each, put back ten times what they drew, and find no third.
fn draw_both<R: Abort>(rt: &R, board: PartBoard<u32>, mut mine: PartClaimer<u32>)
    requires board { IsOfParts board mine }
    requires fresh { IsFresh mine }
    requires two { mine.shares ≡ 2 }
    requires whole { mine.shares ≡ board.shares }
{
    let mut other = board.split(&mut mine, 1);
    if let Some((k, part)) = board.claim_part(&mut other) {
        if let Some((j, second)) = board.claim_part(&mut mine) {
            assert!(rt; (k, part, j, second) == (0, 7, 1, 8));
            board.put_back(&mut mine, j, 80);
            board.put_back(&mut other, k, 70);
            assert!(rt; board.claim_part(&mut mine).is_none());
            assert!(rt; mine.stopped() && !other.stopped());
            board.join(&mut mine, other);
            assert_eq!(rt; mine.shares(), 2);
            let Parts { all, parts } = board.close(mine);
            assert!(rt; all);
            assert!(rt; parts.as_slice() == [70, 80].as_slice());
            return;
        }
    }
    assert!(rt; false);
}

#[test]
fn gives_each_part_to_one_of_two_claimers(rt: HostRuntime) -> Result<(), Fail> {
    let parts = Vec::from_slice(rt.alloc(), &[7, 8])?;
    let Ok((board, claimer)) = PartBoard::new(rt.alloc(), parts, 2) else {
        return Err(Fail::new("no memory"));
    };
    draw_both(&rt, board, claimer);
    Ok(())
}

/// Adds a part's number to it, where that fits.
#[derive(Drop)]
struct AddsNumber;

impl PartWork for AddsNumber {
    ghost use Rattle.std.specs.Prelude.{◌+◌, ◌%◌, ◌^◌};

    type Part = u32;

    ghost part_of = { λ work k part. (part + k) % 2 ^ 32 };

    fn work(&self, k: u32, part: &mut u32) {
        *part = part.wrapping_add(k);
    }
}

#[test]
fn works_parts_at_their_places(rt: HostRuntime) -> Result<(), Fail> {
    for workers in [1, 2, 64] {
        let gate = CountingGate::new(0);
        let parts = Vec::from_slice(rt.alloc(), &[7, 8])?;
        let Ok(parts) = run_parts(&rt, rt.alloc(), parts, workers, &AddsNumber, &gate) else {
            return Err(Fail::new("no memory"));
        };
        assert!(&rt; parts.as_slice() == [7, 9].as_slice());
        assert_eq!(&rt; gate.entries(), 2);
    }
    Ok(())
}

#[test]
fn works_two_parts_side_by_side(rt: HostRuntime) -> Result<(), Fail> {
    let gate = MeetingGate::new(0);
    let parts = Vec::from_slice(rt.alloc(), &[7, 8])?;
    let Ok(parts) = run_parts(&rt, rt.alloc(), parts, 2, &AddsNumber, &gate) else {
        return Err(Fail::new("no memory"));
    };
    assert!(&rt; parts.as_slice() == [7, 9].as_slice());
    assert!(&rt; !gate.is_raised());
    Ok(())
}
