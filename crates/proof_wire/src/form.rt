//! The forms of proofs.

ghost use Rattle.std.specs.Prelude.{◌≡◌, ◌≤◌, ◌+◌};
ghost use Rattle.proof_wire.specs.Forms.{form_of, last_degree, magic};

/// How the messages of a layer end, and so how one claim on the layer below comes from two.
#[derive(Clone, Copy, Debug, PartialEq, Eq)]
pub enum ProofForm {
    /// With a polynomial on the line through both operands' points; its challenge picks a point of the line.
    Line,
    /// With the pair of the values at both operands' points; its challenge is the weight of the second.
    Pair,
}

impl ProofForm {
    /// The form that bytes are read in: that of pairs where their fourth byte is `P`, and else that of lines.
    pub fn of(bytes: &[u8]) -> ProofForm
        ensures { result ≡ form_of bytes.now }
    {
        if bytes.len() > 3 && bytes[3] == b'P' {
            ProofForm::Pair
        } else {
            ProofForm::Line
        }
    }

    /// The degree of a layer's last message as a polynomial, where the layer below has `k` coordinates: it has one
    /// coefficient more.
    pub fn last_degree(self, k: usize) -> usize
        ensures value { result ≡ last_degree self k }
        ensures most { result ≤ k + 1 }
    {
        match self {
            ProofForm::Line => k,
            ProofForm::Pair => 1,
        }
    }

    /// The bytes before the first coefficient.
    pub(crate) fn magic(self) -> [u8; 4]
        ensures { result ≡ magic self }
    {
        match self {
            ProofForm::Line => *b"GKR1",
            ProofForm::Pair => *b"GKRP",
        }
    }
}
