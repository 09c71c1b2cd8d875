//! Laws of the field. Each function does nothing: its contract is a law that is proved.

ghost use Rattle.std.specs.Prelude.{◌≡◌, ◌⊎◌, ◌<◌, length, List, ℕ};
ghost use Rattle.field_ext.specs.Field.{prime, F, K, add_f, mul_f, neg_f, f_ops, zero_k, one_k, add_k, mul_k, neg_k, embed_k, k_ops, of};
ghost use Rattle.field_ext.specs.Ring.{Laws};
ghost use Rattle.field_ext.specs.Bytes.{bytes_of};

/// The elements of F_p are a commutative ring, and those of K are.
#[tactic(auto, using(crate::proofs::api::FLaws::f_laws, crate::proofs::api::KLaws::k_laws))]
pub fn ring()
    ensures prime { Laws F f_ops }
    ensures extension { Laws K k_ops }
{}

/// A product of elements other than zero is not zero.
#[tactic(auto, using(crate::proofs::api::KLaws::k_no_zero_divisors))]
pub fn no_zero_divisors()
    ensures { (x y : K) → mul_k x y ≡ zero_k → (x ≡ zero_k) ⊎ (y ≡ zero_k) }
{}

/// The elements of F_p lie in K with their sums, products and opposites.
pub fn embedding()
    ensures zero { embed_k (of 0) ≡ zero_k }
    ensures one { embed_k (of 1) ≡ one_k }
    ensures sums { (a b : F) → embed_k (add_f a b) ≡ add_k (embed_k a) (embed_k b) }
    ensures products { (a b : F) → embed_k (mul_f a b) ≡ mul_k (embed_k a) (embed_k b) }
    ensures opposites { (a : F) → embed_k (neg_f a) ≡ neg_k (embed_k a) }
    ensures apart { (a b : F) → embed_k a ≡ embed_k b → a ≡ b }
{}

/// Each element has eight bytes, and no other element has them.
pub fn own_bytes()
    ensures size { (x : K) → length (bytes_of x) ≡ 8 }
    ensures apart { (x y : K) → bytes_of x ≡ bytes_of y → x ≡ y }
{}
