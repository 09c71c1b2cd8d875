//! What is reported of a live session.

ghost use Rattle.std.specs.Prelude.{◌≡◌, ◌++◌, OnOk};
ghost use Rattle.case_text.specs.Replies.{session_text};

use crate::reply::put_line;
use std::alloc::AllocError;

/// How many challenges a session took, and how many bytes each end was sent.
#[derive(Clone, Copy, Debug, PartialEq, Eq)]
pub struct SessionSizes {
    pub challenges: u64,
    pub to_prover: u64,
    pub to_verifier: u64,
}

/// The lines of a session that ended with a proof that is accepted.
pub(crate) fn put_session(out: &mut Vec<u8>, sizes: SessionSizes) -> Result<(), AllocError>
    ensures { OnOk result (out.new.items ≡ out.old.items ++ session_text sizes) }
{
    put_line(out, b"session ", sizes.challenges)?;
    put_line(out, b"to prover ", sizes.to_prover)?;
    put_line(out, b"to verifier ", sizes.to_verifier)?;
    out.extend_from_slice(b"accepted\n")?;
    Ok(())
}
