//! What a source of challenges does.

ghost use Rattle.std.specs.Prelude.{◌≡◌, ℕ, List, IsTrue};
ghost use Rattle.transcript_fs.specs.Source.{Source};

use field_ext::Ext;

/// A source of challenges, which takes each message in before it gives the next challenge.
pub trait Challenges {
    /// How this kind of source makes challenges.
    ghost source: { Source };

    /// What the next challenges depend on, as numbers.
    ghost state: { Self → List ℕ };

    /// Takes a message in: the elements that the prover sends at once.
    fn absorb(&mut self, message: &[Ext])
        ensures { state self.new ≡ source.absorb (state self.old) message.now };

    /// Gives the next challenge.
    fn challenge(&mut self) -> Ext
        requires { IsTrue (source.has (state self.old) 1) }
        ensures value { result ≡ source.draw (state self.old) }
        ensures state { state self.new ≡ source.after (state self.old) };

    /// Whether `n` more challenges can be drawn.
    fn has(&self, n: usize) -> bool
        ensures { result ≡ source.has (state self.now) n };
}
