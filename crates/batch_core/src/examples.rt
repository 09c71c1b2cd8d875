//! Small batches, worked by hand. Each function does nothing: its contract is proved.

ghost use Rattle.std.specs.Prelude.{◌≡◌, [], ◌∷◌};
ghost use Rattle.field_ext.specs.Field.{k_ops, of};
ghost use Rattle.field_ext.specs.Multilinear.{extension_at};
ghost use Rattle.proof_wire.specs.declared.form.ProofForm.TheVariants.{Line};
ghost use Rattle.gkr_layers.specs.Examples.{number, minus, adds, multiplies};
ghost use Rattle.batch_core.specs.CopiedWiring.{same_copy};
ghost use Rattle.batch_core.specs.CopiedValues.{instance_weight};
ghost use Rattle.batch_core.specs.BatchClaim.{claim_of_batch};
ghost use Rattle.batch_core.specs.Examples.{product_circuit, two_products, two_multiples, three_outputs};

/// The claim that 3 * 4 is 12 and 5 * 6 is 30: two copies of a circuit with layers of 2, 2 and 4 positions.
pub fn two_products()
    ensures outputs { (claim_of_batch Line product_circuit [] two_products).k ≡ 2 }
    ensures layers { (claim_of_batch Line product_circuit [] two_products).layers ≡ record {
      k = 2;
      gates = adds 0 0 ∷ adds 1 0 ∷ adds 2 2 ∷ adds 3 2 ∷ [];
    } ∷ record {
      k = 3;
      gates = adds 0 0 ∷ multiplies 1 2 ∷ adds 4 4 ∷ multiplies 5 6 ∷ [];
    } ∷ [] }
    ensures inputs { (claim_of_batch Line product_circuit [] two_products).input_table ≡ number 0
        ∷ number 3 ∷ number 4 ∷ number 0 ∷ number 0 ∷ number 5 ∷ number 6 ∷ number 0 ∷ [] }
    ensures claimed { (claim_of_batch Line product_circuit [] two_products).claimed_table
        ≡ number 0 ∷ number 12 ∷ number 0 ∷ number 30 ∷ [] }
{}

/// At one coordinate of each point, "all three are one copy" is `3 * 5 * 7 + (1 - 3) * (1 - 5) * (1 - 7)`.
pub fn one_coordinate()
    ensures { same_copy k_ops (number 3 ∷ []) (number 5 ∷ []) (number 7 ∷ []) ≡ number 57 }
{}

/// Three instances have four copies, of which the last two are of the last instance: the claimed table's extension is 8, 9 or 10 at
/// a copy's bits, and the last instance's weight is that of two copies.
pub fn last_instance()
    ensures first { extension_at k_ops k_ops (λ x. x)
        (claim_of_batch Line product_circuit [] three_outputs).claimed_table
        (number 1 ∷ number 0 ∷ number 0 ∷ []) ≡ number 8 }
    ensures third { extension_at k_ops k_ops (λ x. x)
        (claim_of_batch Line product_circuit [] three_outputs).claimed_table
        (number 1 ∷ number 0 ∷ number 1 ∷ []) ≡ number 10 }
    ensures fourth { extension_at k_ops k_ops (λ x. x)
        (claim_of_batch Line product_circuit [] three_outputs).claimed_table
        (number 1 ∷ number 1 ∷ number 1 ∷ []) ≡ number 10 }
    ensures weight_first { instance_weight k_ops (number 2 ∷ number 3 ∷ []) 3 0 ≡ number 2 }
    ensures weight_second { instance_weight k_ops (number 2 ∷ number 3 ∷ []) 3 1 ≡ minus 4 }
    ensures weight_third { instance_weight k_ops (number 2 ∷ number 3 ∷ []) 3 2 ≡ number 3 }
{}

/// Two instances that share their first input, 3: at the first position the input table's extension is 3 for each copy point, at the
/// second it goes through 4 and 6.
pub fn shared_input()
    ensures shared { extension_at k_ops k_ops (λ x. x)
        (claim_of_batch Line product_circuit (of 3 ∷ []) two_multiples).input_table
        (number 1 ∷ number 0 ∷ number 2 ∷ []) ≡ number 3 }
    ensures own { extension_at k_ops k_ops (λ x. x)
        (claim_of_batch Line product_circuit (of 3 ∷ []) two_multiples).input_table
        (number 0 ∷ number 1 ∷ number 2 ∷ []) ≡ number 8 }
    ensures both { extension_at k_ops k_ops (λ x. x)
        (claim_of_batch Line product_circuit (of 3 ∷ []) two_multiples).input_table
        (number 2 ∷ number 3 ∷ number 5 ∷ []) ≡ minus 54 }
{}
