//! The verifier's answer.

use field_ext::Ext;

/// The first equation that fails, with its two sides, or that none does. Layers count from 0, rounds from 1.
#[derive(Clone, Copy, Debug, PartialEq, Eq)]
pub enum Verdict {
    /// Every equation holds.
    Accepted,
    /// A round's message at 0 plus the message at 1 is not the claim before it.
    Sum {
        layer: usize,
        round: usize,
        had: Ext,
        claim: Ext,
    },
    /// The claim after a layer's rounds is not what the wiring polynomials make of the layer's last message.
    End {
        layer: usize,
        had: Ext,
        want: Ext,
    },
    /// The last claim is not the value of the inputs' extension.
    Input {
        had: Ext,
        want: Ext,
    },
}
