//! Claims of pieces, in one thread.

ghost use Rattle.std.specs.Prelude.{◌≡◌, false};
ghost use Rattle.chunk_board.specs.Board.{IsOf};

use chunk_board::{ChunkBoard, Claimer};
use std::process::Abort;
use std::test::Fail;

/// How often one piece was drawn, and how often there was none, where each share but one claims once.
fn claimed_once_each<R: Abort>(rt: &R, board: &ChunkBoard, mut mine: Claimer) -> (u32, u32)
    requires board { IsOf board.now mine }
    requires going { mine.stopped ≡ false }
    requires one_more { mine.shares ≡ 64 }
{
    let mut drawn: u32 = 0;
    let mut none: u32 = 0;
    for turn in 0..63_u32 {
        let mut other = board.split(&mut mine, 1);
        match board.claim(&mut other) {
            Some(k) => {
                assert_eq!(rt; k, 0);
                drawn += 1;
            }
            None => none += 1,
        }
    }
    match board.claim(&mut mine) {
        Some(k) => {
            assert_eq!(rt; k, 0);
            drawn += 1;
        }
        None => none += 1,
    }
    (drawn, none)
}

#[test]
fn gives_one_piece_to_one_of_64_claimers(rt: HostRuntime) -> Result<(), Fail> {
    let (board, mine) = ChunkBoard::new(rt.alloc(), 1, 64)?;
    let counts = claimed_once_each(&rt, &board, mine);
    assert!(&rt; counts == (1, 63));
    Ok(())
}

#[test]
fn tells_at_the_end_whether_all_was_drawn(rt: HostRuntime) -> Result<(), Fail> {
    for pieces in [1, 2] {
        let (board, mut mine) = ChunkBoard::new(rt.alloc(), pieces, 2)?;
        let mut other = board.split(&mut mine, 1);
        let first = board.claim(&mut other);
        assert!(&rt; first == Some(0));
        board.join(&mut mine, other);
        let all = board.close(mine);
        assert_eq!(&rt; all, pieces == 1);
    }
    Ok(())
}
