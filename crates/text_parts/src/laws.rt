//! What holds of the parts by their definitions alone: each is exact.

ghost use Rattle.std.specs.Prelude.{ℕ, List};
ghost use Rattle.text_parts.specs.declared.due.DueKind.{DueKind};
ghost use Rattle.text_parts.specs.declared.rule.Rule.{Rule};
ghost use Rattle.text_parts.specs.Parts.{word_at, decimal_at, counted_bytes_at};
ghost use Rattle.text_parts.specs.Exact.{IsExact, IsWord, IsSound, IsDecimal, IsCounted};

/// A word takes exactly its bytes.
#[tactic(auto, using(crate::proofs::api::Leaves::word_exact))]
pub fn word_is_exact()
    ensures { (kind : DueKind) (word : List ℕ) → IsExact (IsWord word) (word_at kind word) }
{}

/// A decimal takes exactly the digits of its number, and the byte after them.
#[tactic(auto, using(crate::proofs::api::Decimals::decimal_exact))]
pub fn decimal_is_exact()
    ensures { (rule : Rule) → IsSound rule → IsExact (IsDecimal rule) (decimal_at rule) }
{}

/// Counted bytes are any bytes, as many as there should be.
#[tactic(auto, using(crate::proofs::api::Leaves::counted_bytes_exact))]
pub fn counted_bytes_is_exact()
    ensures { (n : ℕ) → IsExact (IsCounted n) (counted_bytes_at n) }
{}
