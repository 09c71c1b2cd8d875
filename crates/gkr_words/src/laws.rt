//! Which words are which command, by the definitions alone.

ghost use Rattle.std.specs.Prelude.{◌≡◌, ◌≢◌, ◌<◌, ◌≤◌, ◌^◌, ◌↔◌, List, ℕ, [], ◌∷◌, None, Some, codes, decimal};
ghost use Rattle.gkr_words.specs.Commands.{IsPieceSize, command_of, number_of};

use crate::words::{CaseCommand, Command};
use proof_two::{ProofKind, ProofVersion};

/// The number of a word is the one below 2^32 whose decimal it is.
pub fn number_by_decimal()
    ensures { (word : List ℕ) (n : ℕ)
        → (number_of word ≡ Some n) ↔ ((n < 2 ^ 32) × (word ≡ decimal n)) }
{}

/// A subcommand's name by itself names that command; `prove` then means one worker and a proof by
/// lines, and `serve` one of each. `serve --history` reports the history too.
pub fn words_alone()
    ensures eval { (program : List ℕ)
        → command_of (program ∷ codes "eval" ∷ []) ≡ Some (Command.OfCase CaseCommand.Eval) }
    ensures circuit { (program : List ℕ)
        → command_of (program ∷ codes "circuit" ∷ []) ≡ Some (Command.OfCase CaseCommand.Circuit) }
    ensures prove { (program : List ℕ)
        → command_of (program ∷ codes "prove" ∷ [])
        ≡ Some (Command.OfCase (CaseCommand.Prove 1 (ProofKind.ByLines ProofVersion.One))) }
    ensures verify { (program : List ℕ)
        → command_of (program ∷ codes "verify" ∷ []) ≡ Some (Command.OfCase CaseCommand.Verify) }
    ensures audit { (program : List ℕ)
        → command_of (program ∷ codes "audit" ∷ []) ≡ Some (Command.OfCase CaseCommand.Audit) }
    ensures serve { (program : List ℕ)
        → command_of (program ∷ codes "serve" ∷ []) ≡ Some (Command.Serve 1 1 1) }
    ensures history { (program : List ℕ)
        → command_of (program ∷ codes "serve" ∷ codes "--history" ∷ [])
        ≡ Some (Command.ServeHistory 1 1 1) }
{}

/// `prove --workers W` and `demo N --workers W` name these commands for each W from 1 to 64 and
/// each N below 2^32, both in decimal; `demo N` means one worker.
pub fn words_with_numbers()
    ensures prove { (program : List ℕ) (workers : ℕ) → 1 ≤ workers → workers ≤ 64
        → command_of (program ∷ codes "prove" ∷ codes "--workers" ∷ decimal workers ∷ [])
        ≡ Some (Command.OfCase (CaseCommand.Prove workers (ProofKind.ByLines ProofVersion.One))) }
    ensures demo { (program : List ℕ) (number : ℕ) → number < 2 ^ 32
        → command_of (program ∷ codes "demo" ∷ decimal number ∷ []) ≡ Some (Command.Demo number 1) }
    ensures demo_by { (program : List ℕ) (number workers : ℕ) → number < 2 ^ 32 → 1 ≤ workers
        → workers ≤ 64
        → command_of (program ∷ codes "demo" ∷ decimal number ∷ codes "--workers" ∷ decimal workers
        ∷ []) ≡ Some (Command.Demo number workers) }
{}

/// `prove --proof pair` asks for a proof by pairs, and `prove --proof 1` and `prove --proof 2` for one by lines in that
/// version, by one worker or by as many as `--workers` says after it. `convert --to 1` and `convert --to 2` name a version.
pub fn words_with_forms()
    ensures pair { (program : List ℕ)
        → command_of (program ∷ codes "prove" ∷ codes "--proof" ∷ codes "pair" ∷ [])
        ≡ Some (Command.OfCase (CaseCommand.Prove 1 ProofKind.ByPairs)) }
    ensures line { (program : List ℕ)
        → command_of (program ∷ codes "prove" ∷ codes "--proof" ∷ codes "1" ∷ [])
        ≡ Some (Command.OfCase (CaseCommand.Prove 1 (ProofKind.ByLines ProofVersion.One))) }
    ensures short { (program : List ℕ)
        → command_of (program ∷ codes "prove" ∷ codes "--proof" ∷ codes "2" ∷ [])
        ≡ Some (Command.OfCase (CaseCommand.Prove 1 (ProofKind.ByLines ProofVersion.Two))) }
    ensures other { (program : List ℕ)
        → command_of (program ∷ codes "prove" ∷ codes "--proof" ∷ codes "lines" ∷ []) ≡ None }
    ensures to_one { (program : List ℕ)
        → command_of (program ∷ codes "convert" ∷ codes "--to" ∷ codes "1" ∷ [])
        ≡ Some (Command.OfCase (CaseCommand.Convert ProofVersion.One)) }
    ensures to_two { (program : List ℕ)
        → command_of (program ∷ codes "convert" ∷ codes "--to" ∷ codes "2" ∷ [])
        ≡ Some (Command.OfCase (CaseCommand.Convert ProofVersion.Two)) }
    ensures to_other { (program : List ℕ)
        → command_of (program ∷ codes "convert" ∷ codes "--to" ∷ codes "3" ∷ []) ≡ None }
    ensures to_none { (program : List ℕ) → command_of (program ∷ codes "convert" ∷ []) ≡ None }
    ensures pair_by { (program : List ℕ) (workers : ℕ) → 1 ≤ workers → workers ≤ 64
        → command_of (program ∷ codes "prove" ∷ codes "--proof" ∷ codes "pair" ∷ codes "--workers"
        ∷ decimal workers ∷ []) ≡ Some
        (Command.OfCase (CaseCommand.Prove workers ProofKind.ByPairs)) }
{}

/// `session --piece B` names a session in pieces of B bytes, for each B from 1 to 65,536 in decimal and for no other below 2^32, by
/// one worker or by as many as `--workers` says after it. Without its piece it is no command.
pub fn words_with_pieces()
    ensures piece { (program : List ℕ) (piece : ℕ) → 1 ≤ piece → piece ≤ 65536
        → command_of (program ∷ codes "session" ∷ codes "--piece" ∷ decimal piece ∷ [])
        ≡ Some (Command.Session piece 1) }
    ensures piece_by { (program : List ℕ) (piece workers : ℕ) → 1 ≤ piece → piece ≤ 65536
        → 1 ≤ workers → workers ≤ 64
        → command_of (program ∷ codes "session" ∷ codes "--piece" ∷ decimal piece
        ∷ codes "--workers" ∷ decimal workers ∷ []) ≡ Some (Command.Session piece workers) }
    ensures other { (program : List ℕ) (number : ℕ) → number < 2 ^ 32 → ¬ IsPieceSize number
        → command_of (program ∷ codes "session" ∷ codes "--piece" ∷ decimal number ∷ []) ≡ None }
    ensures alone { (program : List ℕ) → command_of (program ∷ codes "session" ∷ []) ≡ None }
{}

/// Words name a command only where the first after the program's own name is a subcommand's.
pub fn other_words()
    ensures none { command_of [] ≡ None }
    ensures own_name { (program : List ℕ) → command_of (program ∷ []) ≡ None }
    ensures other { (program word : List ℕ) (rest : List (List ℕ)) → word ≢ codes "eval"
        → word ≢ codes "circuit" → word ≢ codes "prove" → word ≢ codes "verify"
        → word ≢ codes "audit" → word ≢ codes "convert" → word ≢ codes "demo" → word ≢ codes "serve"
        → word ≢ codes "session" → command_of (program ∷ word ∷ rest) ≡ None }
{}
