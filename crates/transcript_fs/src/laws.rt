//! Laws of the transcript. Each function does nothing: its contract is a law that is proved.

ghost use Rattle.std.specs.Prelude.{ℕ, List, IsTrue};
ghost use Rattle.transcript_fs.specs.Transcript.{transcript};

/// A transcript always has as many challenges as are asked for.
pub fn always_has()
    ensures { (state : List ℕ) (n : ℕ) → IsTrue (transcript.has state n) }
{}
