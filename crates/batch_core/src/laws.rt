//! Laws of copies. Each function does nothing: its contract is a law that is proved.

ghost use Rattle.std.specs.Prelude.{◌≡◌, ◌↔◌, ◌≤◌, ◌<◌, ◌+◌, ◌-◌, ◌^◌, ℕ, List, [], ◌∷◌, ◌++◌, length, All};
ghost use Rattle.field_ext.specs.Field.{F, K, k_ops, add_k, mul_k, one_k};
ghost use Rattle.field_ext.specs.Sums.{sum_below};
ghost use Rattle.field_ext.specs.Multilinear.{eq_poly, extension_at};
ghost use Rattle.circuit_core.specs.declared.gate.CircuitGate.{CircuitGate};
ghost use Rattle.circuit_core.specs.Parts.{Parts, IsOver, height, input_table};
ghost use Rattle.circuit_core.specs.Sound.{SoundCircuit, exponent_at};
ghost use Rattle.wiring_poly.specs.Wiring.{wiring_add, wiring_mul};
ghost use Rattle.proof_wire.specs.declared.form.ProofForm.{ProofForm};
ghost use Rattle.gkr_layers.specs.Layers.{FitTogether, layers_of, values_over};
ghost use Rattle.gkr_layers.specs.Acceptance.{claim_in, true_table};
ghost use Rattle.batch_core.specs.declared.instances.Instances.{Instances};
ghost use Rattle.batch_core.specs.Copies.{joined, copies, copies_table, copied_layers, copy_exponent, instance_of};
ghost use Rattle.batch_core.specs.CopiedWiring.{same_copy, same_bits};
ghost use Rattle.batch_core.specs.CopiedValues.{instance_weight, shared_part, own_part};
ghost use Rattle.batch_core.specs.BatchClaim.{Instance, instance_at, claim_of_batch, HaveOutputs, AreTrue};
ghost use Rattle.batch_core.specs.ListedInstances.{instances_of, AreInstancesOf};

/// The copies' exponent is the least with a copy for each instance.
pub fn least_exponent()
    ensures enough { (count : ℕ) → count ≤ 2 ^ copy_exponent count }
    ensures least { (count n : ℕ) → count ≤ 2 ^ n → copy_exponent count ≤ n }
{}

/// The claim on one instance is the claim on the circuit.
pub fn one_instance()
    ensures { (form : ProofForm) (p : Parts) (shared : List F) (instance : Instance)
        → claim_of_batch form p shared (instance ∷ []) ≡ claim_in form p (shared ++ instance.own)
        instance.outputs }
{}

/// The wiring polynomials of copies are those of one copy, times the extension of "all three are one copy", which is a product
/// over the copies' coordinates. Points have the coordinates of a position first, then those of a copy.
pub fn product_form()
    ensures add { (j k n : ℕ) (gates : List CircuitGate) (z b c y x w : List K)
        → length gates ≡ 2 ^ j → All (IsOver (2 ^ k)) gates
        → length z ≡ j → length b ≡ k → length c ≡ k → length y ≡ n →
        wiring_add k_ops (copies n k gates) (z ++ y) (b ++ x) (c ++ w) ≡ mul_k
        (same_copy k_ops y x w) (wiring_add k_ops gates z b c) }
    ensures mul { (j k n : ℕ) (gates : List CircuitGate) (z b c y x w : List K)
        → length gates ≡ 2 ^ j → All (IsOver (2 ^ k)) gates
        → length z ≡ j → length b ≡ k → length c ≡ k → length y ≡ n →
        wiring_mul k_ops (copies n k gates) (z ++ y) (b ++ x) (c ++ w) ≡ mul_k
        (same_copy k_ops y x w) (wiring_mul k_ops gates z b c) }
    ensures product { (y x w : List K) → length x ≡ length y → length w ≡ length y
        → same_copy k_ops y x w ≡ same_bits k_ops y x w }
{}

/// The layers of a batch fit together, and its tables have one value for each position.
pub fn layers_fit()
    ensures layers { (circuit : SoundCircuit) (form : ProofForm) (shared : List F)
        (instances : List Instance)
        → let stated = claim_of_batch form circuit.parts shared instances in
        FitTogether stated.k stated.layers }
    ensures inputs { (circuit : SoundCircuit) (form : ProofForm) (shared : List F)
        (instances : List Instance)
        → let stated = claim_of_batch form circuit.parts shared instances in
        length stated.input_table ≡ 2 ^ (exponent_at circuit.parts (height circuit.parts)
        + copy_exponent (length instances)) }
    ensures claimed { (circuit : SoundCircuit) (form : ProofForm) (shared : List F)
        (instances : List Instance) → 1 ≤ length instances → HaveOutputs circuit.parts instances
        → let stated = claim_of_batch form circuit.parts shared instances in
        length stated.claimed_table ≡ 2 ^ stated.k }
{}

/// The values of copied layers are those of each copy, one after another. So the claimed table of a batch is the true one exactly
/// where the outputs of each instance are those that the circuit has on its inputs.
pub fn values()
    ensures layers { (circuit : SoundCircuit) (n : ℕ) (inputs : ℕ → List F)
        → values_over k_ops (copied_layers n (layers_of circuit.parts))
        (copies_table n (λ c. input_table circuit.parts (inputs c))) ≡ copies_table n
        (λ c. values_over k_ops (layers_of circuit.parts) (input_table circuit.parts (inputs c))) }
    ensures outputs { (circuit : SoundCircuit) (form : ProofForm) (shared : List F)
        (instances : List Instance) → 1 ≤ length instances → HaveOutputs circuit.parts instances
        → let stated = claim_of_batch form circuit.parts shared instances in
        (stated.claimed_table ≡ true_table stated) ↔ AreTrue circuit.parts shared instances }
{}

/// The extension of a table of copies is the sum of the copies' extensions by the equality polynomial, and where copies stand for
/// instances that of the instances' by their weights. In the extension of the input table shared inputs and constants count once.
pub fn extensions()
    ensures copies { (j n : ℕ) (z y : List K) (table : ℕ → List K) → length z ≡ j → length y ≡ n
        → ((c : ℕ) → length (table c) ≡ 2 ^ j)
        → extension_at k_ops k_ops (λ x. x) (copies_table n table) (z ++ y) ≡ sum_below k_ops
        (2 ^ n)
        (λ c. mul_k (eq_poly k_ops y c) (extension_at k_ops k_ops (λ x. x) (table c) z)) }
    ensures instances { (j n count : ℕ) (z y : List K) (table : ℕ → List K) → 1 ≤ count
        → length z ≡ j → length y ≡ n → ((m : ℕ) → length (table m) ≡ 2 ^ j)
        → extension_at k_ops k_ops (λ x. x) (copies_table n (λ c. table (instance_of count c)))
        (z ++ y) ≡ sum_below k_ops count (λ m. mul_k (instance_weight k_ops y count m)
        (extension_at k_ops k_ops (λ x. x) (table m) z)) }
    ensures inputs { (circuit : SoundCircuit) (form : ProofForm) (shared : List F)
        (instances : List Instance) (z y : List K) → 1 ≤ length instances
        → length z ≡ exponent_at circuit.parts (height circuit.parts)
        → length y ≡ copy_exponent (length instances)
        → extension_at k_ops k_ops (λ x. x)
        (claim_of_batch form circuit.parts shared instances).input_table (z ++ y) ≡ add_k
        (shared_part circuit.parts shared z)
        (sum_below k_ops (length instances)
        (λ m. mul_k (instance_weight k_ops y (length instances) m)
        (own_part circuit.parts shared (instance_at instances m).own z))) }
{}

/// The weights of instances add to 1. An instance before the last has the weight of its one copy, and the last those of all copies
/// from its own on.
pub fn weights()
    ensures sum { (count : ℕ) (y : List K) → 1 ≤ count
        → sum_below k_ops count (instance_weight k_ops y count) ≡ one_k }
    ensures before { (count : ℕ) (y : List K) (m : ℕ) → m + 1 < count → count ≤ 2 ^ length y
        → instance_weight k_ops y count m ≡ eq_poly k_ops y m }
    ensures last { (last : ℕ) (y : List K) → last < 2 ^ length y
        → instance_weight k_ops y (last + 1) last ≡ sum_below k_ops (2 ^ length y - last)
        (λ c. eq_poly k_ops y (last + c)) }
{}

/// Instances that are listed are as many as is said, and one after another have the values of the lists, each as many outputs as the
/// circuit.
pub fn listed_instances()
    ensures count { (p : Parts) (listed : Instances)
        → length (instances_of p listed) ≡ listed.count }
    ensures own { (p : Parts) (listed : Instances) → AreInstancesOf p listed
        → joined listed.count (λ m. (instance_at (instances_of p listed) m).own)
        ≡ listed.own.now }
    ensures outputs { (p : Parts) (listed : Instances) → AreInstancesOf p listed
        → joined listed.count (λ m. (instance_at (instances_of p listed) m).outputs)
        ≡ listed.outputs.now }
    ensures as_many { (p : Parts) (listed : Instances) → AreInstancesOf p listed
        → HaveOutputs p (instances_of p listed) }
{}
