//! Why a list of nodes has no circuit.

use std::alloc::AllocError;

/// Why there is no circuit.
#[derive(Clone, Copy, Debug, PartialEq, Eq)]
pub enum LayerRefused {
    /// There would be more layers above the input than the limits allow: so many.
    Deep { levels: usize },
    /// A height, the lowest such one, needs more positions before padding than a layer may have: so many.
    Wide { height: usize, width: usize },
    /// No memory was found.
    Memory,
}

impl From<AllocError> for LayerRefused {
    ghost use Rattle.std.specs.Prelude.{◌≡◌};
    ghost use Rattle.layer_compile.specs.declared.refused.LayerRefused.TheVariants.{Memory};

    ghost from_gives = { λ _ e. e ≡ Memory };

    fn from(_: AllocError) -> LayerRefused {
        LayerRefused::Memory
    }
}
