//! The rounds of a sumcheck.

ghost use Rattle.std.specs.Prelude.{◌≡◌, true, false, [], ◌∷◌, IfOk, IfErr};
ghost use Rattle.field_ext.specs.Field.{K, k_ops, add_k, zero_k, one_k, same_k};
ghost use Rattle.field_ext.specs.Polynomial.{value_at};
ghost use Rattle.sumcheck_verify.specs.Sumcheck.{counted, middle_for};

use field_ext::Ext;
use poly_roots::{sum01, value_at};
use std::marker::Model;

/// A message whose values at 0 and at 1 do not add to the claim.
#[derive(Clone, Copy, Debug, PartialEq, Eq)]
pub struct SumFault {
    /// 1 plus the number of messages taken before.
    pub round: usize,
    /// The value at 0 plus the value at 1.
    pub had: Ext,
    /// The claim before the message.
    pub claim: Ext,
}

/// A sumcheck between two messages, or between a message and its challenge. The count of messages stands still at the
/// greatest `usize`.
#[derive(Drop)]
pub struct Rounds {
    claim: Ext,
    message: [Ext; 3],
    waiting: bool,
    taken: usize,
}

impl Model for Rounds {
    ghost use Rattle.sumcheck_verify.specs.Sumcheck.{Sumcheck};

    ghost Value = { Sumcheck };

    ghost view = { λ r. record {
      claim = r.claim;
      message = r.message;
      waiting = r.waiting;
      taken = r.taken;
    } };
}

impl Rounds {
    /// The sumcheck of this claim, before its first message.
    pub fn start(claim: Ext) -> Rounds
        ensures claim { result.claim ≡ claim }
        ensures waiting { result.waiting ≡ false }
        ensures taken { result.taken ≡ 0 }
    {
        Rounds {
            claim,
            message: [Ext::zero(); 3],
            waiting: false,
            taken: 0,
        }
    }

    /// Takes the next round's message, of three coefficients. `SumFault` comes exactly where the value at 0 plus the
    /// value at 1 is not the claim, and then nothing changes.
    pub fn take(&mut self, message: [Ext; 3]) -> Result<(), SumFault>
        requires { self.old.waiting ≡ false }
        ensures holds { IfOk result
            (λ _. same_k (add_k (value_at k_ops message zero_k) (value_at k_ops message one_k))
            self.old.claim ≡ true) }
        ensures message { IfOk result (λ _. self.new.message ≡ message) }
        ensures kept { IfOk result (λ _. self.new.claim ≡ self.old.claim) }
        ensures waiting { IfOk result (λ _. self.new.waiting ≡ true) }
        ensures taken { IfOk result (λ _. self.new.taken ≡ counted self.old.taken) }
        ensures fails { IfErr result
            (λ fault. same_k (add_k (value_at k_ops message zero_k) (value_at k_ops message one_k))
            self.old.claim ≡ false) }
        ensures round { IfErr result (λ fault. fault.round ≡ counted self.old.taken) }
        ensures had { IfErr result
            (λ fault. fault.had ≡ add_k (value_at k_ops message zero_k)
            (value_at k_ops message one_k)) }
        ensures claim { IfErr result (λ fault. fault.claim ≡ self.old.claim) }
        ensures unchanged { IfErr result (λ fault. self.new ≡ self.old) }
    {
        let had = sum01(&message);
        if !had.equals(self.claim) {
            return Err(SumFault {
                round: self.taken.saturating_add(1),
                had,
                claim: self.claim,
            });
        }
        self.keep(message);
        Ok(())
    }

    /// Takes the next round's message by its coefficients of 1 and of X squared, and answers that of X: the one with which the
    /// value at 0 plus the value at 1 is the claim. So there is no fault.
    #[tactic(auto, using(crate::proofs::api::Middle::middle_adds, crate::proofs::api::Middle::middle_alone))]
    pub fn take_two(&mut self, c0: Ext, c2: Ext) -> Ext
        requires { self.old.waiting ≡ false }
        ensures middle { result ≡ middle_for k_ops self.old.claim c0 c2 }
        ensures holds { add_k (value_at k_ops (c0 ∷ result ∷ c2 ∷ []) zero_k)
            (value_at k_ops (c0 ∷ result ∷ c2 ∷ []) one_k) ≡ self.old.claim }
        ensures alone { (c1 : K) → add_k (value_at k_ops (c0 ∷ c1 ∷ c2 ∷ []) zero_k)
            (value_at k_ops (c0 ∷ c1 ∷ c2 ∷ []) one_k) ≡ self.old.claim → c1 ≡ result }
        ensures message { self.new.message ≡ c0 ∷ result ∷ c2 ∷ [] }
        ensures kept { self.new.claim ≡ self.old.claim }
        ensures waiting { self.new.waiting ≡ true }
        ensures taken { self.new.taken ≡ counted self.old.taken }
    {
        let c1 = self.claim - c0 - c0 - c2;
        self.keep([c0, c1, c2]);
        c1
    }

    /// Keeps a message for its challenge.
    fn keep(&mut self, message: [Ext; 3])
        ensures message { self.new.message ≡ message }
        ensures kept { self.new.claim ≡ self.old.claim }
        ensures waiting { self.new.waiting ≡ true }
        ensures taken { self.new.taken ≡ counted self.old.taken }
    {
        self.message = message;
        self.waiting = true;
        self.taken = self.taken.saturating_add(1);
    }

    /// Binds the round's coordinate to its challenge: the claim becomes the message's value there.
    pub fn bind(&mut self, challenge: Ext)
        requires { self.old.waiting ≡ true }
        ensures claim { self.new.claim ≡ value_at k_ops self.old.message challenge }
        ensures waiting { self.new.waiting ≡ false }
        ensures taken { self.new.taken ≡ self.old.taken }
    {
        self.claim = value_at(&self.message, challenge);
        self.waiting = false;
    }

    /// The claim as it is now.
    pub fn claim(&self) -> Ext
        ensures { result ≡ self.now.claim }
    {
        self.claim
    }

    /// Whether a message waits for its challenge.
    pub fn waiting(&self) -> bool
        ensures { result ≡ self.now.waiting }
    {
        self.waiting
    }
}
