//! The challenges that words are.

ghost use Rattle.std.specs.Prelude.{◌≡◌, IfOk};
ghost use Rattle.session_prove.specs.Challenges.{challenges_in};

use field_ext::{Ext, Fp};
use std::alloc::{AllocError, Global};

/// The elements whose real and imaginary parts these are, one after another.
pub(crate) fn challenges_in(alloc: Global, words: &[Fp]) -> Result<Vec<Ext>, AllocError>
    ensures { IfOk result (λ challenges. challenges.items ≡ challenges_in words.now) }
{
    let mut challenges = Vec::with_capacity(alloc, words.len() / 2)?;
    let mut rest = words;
    while let [re, im, behind @ ..] = rest {
        challenges.push(Ext::of(*re, *im))?;
        rest = behind;
    }
    Ok(challenges)
}
