//! Laws of the tables. Each function does nothing: its contract is a law that is proved.

ghost use Rattle.std.specs.Prelude.{◌≡◌, ◌≤◌, ◌^◌, ℕ, List, length};
ghost use Rattle.field_ext.specs.Field.{F, K};
ghost use Rattle.mle_table.specs.Shape.{TableValues};
ghost use Rattle.circuit_core.specs.Parts.{height};
ghost use Rattle.circuit_core.specs.Sound.{SoundCircuit, exponent_at};
ghost use Rattle.circuit_eval.specs.Tables.{table_of, AreTables, FitLayers};

/// A layer of `2^k` positions has as many values.
pub fn one_value_a_position()
    ensures { (c : SoundCircuit) (inputs : List F) (i : ℕ) → i ≤ height c.parts
        → length (table_of c.parts inputs i) ≡ 2 ^ exponent_at c.parts i }
{}

/// The table of a layer of `2^k` positions has k coordinates.
pub fn coordinates_by_layer()
    ensures { (c : SoundCircuit) (inputs : List F) (i : ℕ) (table : TableValues)
        → i ≤ height c.parts
        → table.items ≡ table_of c.parts inputs i → table.k ≡ exponent_at c.parts i }
{}

/// The tables of a circuit's values have the sizes of its layers.
pub fn tables_fit()
    ensures { (c : SoundCircuit) (inputs : List F) (tables : List (List K))
        → AreTables c.parts inputs tables → FitLayers c.parts tables }
{}
