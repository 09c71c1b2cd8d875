//! The pieces of a round as work.

ghost use Rattle.std.specs.Prelude.{◌≡◌, ◌<◌, ◌+◌, [], length};

use field_ext::Ext;
use phase_run::PieceWork;
use round_tables::GateTables;
use std::alloc::{AllocError, Global};

/// The pieces of the next round of a layer's tables.
#[derive(Drop)]
pub(crate) struct PieceSums<'a, 'b> {
    pub(crate) tables: &'a GateTables<'b>,
    ghost ready: { (tables.now.lent ≡ []) ×
        (length tables.now.bound < tables.now.k + tables.now.k) },
}

impl<'a, 'b> PieceWork for PieceSums<'a, 'b> {
    ghost use Rattle.round_tables.specs.LayerSum.{pieces_of};
    ghost use Rattle.sumcheck_prove.specs.Ahead.{message_of};

    type Out = [Ext; 3];

    ghost out_of = { λ work piece. message_of work.tables.now piece };

    ghost pieces = { λ work. pieces_of work.tables.now };

    /// The coefficients of 1, X and X² of a piece. It takes no memory.
    #[tactic(auto, unfolding(crate::specs::Ahead::message_of))]
    fn work(&self, _alloc: Global, k: u32) -> Result<[Ext; 3], AllocError> {
        Ok(self.tables.piece_sum(k as usize))
    }
}
