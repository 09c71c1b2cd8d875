//! The verifier's end.

ghost use Rattle.std.specs.Prelude.{◌≡◌, ◌≢◌, ◌<◌, ◌≤◌, ◌+◌, ◌*◌, ℕ, [], ◌∷◌, None, length, take, drop, IfOk};
ghost use Rattle.std.specs.List.{flat_map};
ghost use Rattle.field_ext.specs.Bytes.{bytes_of};
ghost use Rattle.gkr_layers.specs.Acceptance.{claim_of, verdict_of};
ghost use Rattle.gkr_layers.specs.Layers.{challenges_of};
ghost use Rattle.gkr_layers.specs.Soundness.{IsFalse, LetsPass};
ghost use Rattle.gkr_layers.specs.declared.verdict.Verdict.TheVariants.{Accepted};
ghost use Rattle.live_session.specs.Ending.{EndsWith, IsReadyFor};
ghost use Rattle.live_session.specs.Layout.{messages_in};
ghost use Rattle.live_session.specs.Verifying.{element_count, joined, kept, last_byte, lower, progress_in, spelled, verifier_sent};
ghost use Rattle.live_session.specs.declared.progress.Progress.TheVariants.{Ended};

use crate::ending::Ending;
use crate::intake::Intake;
use crate::layout::{elements_due, whole_messages};
use crate::progress::{LiveFault, Progress};
use circuit_core::Circuit;
use field_ext::{Ext, Fp};
use gkr_layers::Verdict;
use std::alloc::{AllocError, Global};
use std::marker::Model;

/// A verifier that takes the prover's messages as bytes, in pieces of any length, and sends the challenges that it was given:
/// those of the output point at its start, one after each message that is whole, and at last whether it accepts. Contracts
/// see the statement, the challenges and the bytes that it was fed, of which those past the first after the messages are
/// not told apart.
#[derive(Drop)]
pub struct LiveVerifier<'a> {
    circuit: &'a Circuit,
    inputs: &'a [Fp],
    outputs: &'a [Fp],
    words: &'a [Ext],
    intake: Intake,
    ending: Ending,
    reply: Vec<u8>,
    verdict: Option<Verdict>,
}

impl<'a> Model for LiveVerifier<'a> {
    ghost use Rattle.live_session.specs.Verifying.{Session};
    ghost use Rattle.live_session.specs.VerifierState.{IsKept};

    ghost Value = { Session };

    ghost view = { λ a. record {
      parts = a.circuit.now.parts;
      inputs = a.inputs.now;
      outputs = a.outputs.now;
      words = a.words.now;
      bytes = a.intake.bytes;
    } };

    ghost invariant = { λ a. IsKept (record {
      parts = a.circuit.now.parts;
      inputs = a.inputs.now;
      outputs = a.outputs.now;
      words = a.words.now;
      bytes = a.intake.bytes;
    }) a.intake a.ending a.reply.items a.verdict };
}

impl<'a> LiveVerifier<'a> {
    /// A verifier of the statement that the circuit on these inputs has these outputs, as many of both as the circuit has,
    /// with as many words as there are challenges. All its memory is taken here; Err only where none is found.
    pub fn start(
        alloc: Global,
        circuit: &'a Circuit,
        inputs: &'a [Fp],
        outputs: &'a [Fp],
        words: &'a [Ext],
    ) -> Result<LiveVerifier<'a>, AllocError>
        requires inputs { length inputs.now ≡ circuit.now.parts.inputs }
        requires outputs { length outputs.now ≡ circuit.now.parts.outputs }
        requires words { length words.now ≡ challenges_of circuit.now.parts }
        ensures { IfOk result (λ verifier. verifier ≡ record {
          parts = circuit.now.parts;
          inputs = inputs.now;
          outputs = outputs.now;
          words = words.now;
          bytes = [];
        }) }
    {
        let intake = Intake::new(alloc, elements_due(circuit), 1)?;
        let ending = Ending::new(alloc, circuit, words)?;
        let reply = reply_buffer(alloc, words)?;
        Ok(LiveVerifier {
            circuit,
            inputs,
            outputs,
            words,
            intake,
            ending,
            reply,
            verdict: None,
        })
    }

    /// Takes more bytes of the prover's. `Waiting` says that no fault came and some message isn't whole, `Ended` that no
    /// fault came and all messages are, with the verdict on them. The fault of the lowest place is the answer, now and to
    /// whatever is fed after it. No memory is taken.
    pub fn feed(&mut self, bytes: &[u8]) -> Result<Progress, LiveFault>
        ensures state { self.new ≡ kept (joined self.old bytes.now) }
        ensures progress { result ≡ progress_in (joined self.old bytes.now) }
        ensures sound { IfOk result (λ progress. progress ≡ Ended Accepted
            → IsFalse self.old.parts self.old.inputs self.old.outputs → (n : ℕ)
            × LetsPass (claim_of self.old.parts self.old.inputs self.old.outputs)
            (spelled (joined self.old bytes.now)) self.old.words n) }
    {
        self.intake.feed(bytes);
        self.verdict = conclude(
            self.verdict,
            &mut self.ending,
            &mut self.reply,
            self.circuit,
            self.inputs,
            self.outputs,
            self.intake.elements(),
        );
        self.progress()
    }

    /// What was said of the bytes that were fed.
    fn progress(&self) -> Result<Progress, LiveFault>
        ensures { result ≡ progress_in self.now }
    {
        let good = self.intake.elements().len();
        let fed = self.intake.len();
        match self.verdict {
            Some(_) if fed != 8 * good => Err(LiveFault::Extra { at: 8 * good }),
            Some(verdict) => Ok(Progress::Ended(verdict)),
            None if fed >= 8 * good + 8 => Err(LiveFault::Range { at: 8 * good }),
            None => Ok(Progress::Waiting),
        }
    }

    /// All bytes that the verifier has sent.
    pub fn sent(&self) -> &[u8]
        ensures { result.now ≡ verifier_sent self.now }
    {
        let whole = whole_messages(self.circuit, self.intake.elements().len());
        let words = self.circuit.coordinates(0) + whole;
        if self.verdict.is_some() {
            &self.reply[..8 * words + 1]
        } else {
            &self.reply[..8 * words]
        }
    }
}

/// The bytes of the words, and one more.
fn reply_buffer(alloc: Global, words: &[Ext]) -> Result<Vec<u8>, AllocError>
    ensures size { IfOk result (λ reply. length reply.items ≡ 8 * length words.now + 1) }
    ensures words { IfOk result
        (λ reply. take (8 * length words.now) reply.items ≡ flat_map bytes_of words.now) }
{
    let mut reply = Vec::new(alloc);
    for word in words {
        reply.extend_from_slice(&word.to_bytes())?;
    }
    reply.push(0)?;
    Ok(reply)
}

/// The verdict once all elements are there, with which the last byte is written: the one that was reached before, or one that is
/// reached now.
fn conclude(
    verdict: Option<Verdict>,
    ending: &mut Ending,
    reply: &mut [u8],
    circuit: &Circuit,
    inputs: &[Fp],
    outputs: &[Fp],
    elements: &[Ext],
) -> Option<Verdict>
    requires inputs { length inputs.now ≡ circuit.now.parts.inputs }
    requires outputs { length outputs.now ≡ circuit.now.parts.outputs }
    requires elements { length elements.now ≤ element_count circuit.now.parts }
    requires ready { IsReadyFor circuit.now.parts ending.old }
    requires unused { verdict ≡ None
        → length ending.old.challenges ≡ challenges_of circuit.now.parts }
    requires reply { length reply.old ≡ 8 * challenges_of circuit.now.parts + 1 }
    ensures ready { IsReadyFor circuit.now.parts ending.new }
    ensures stays { verdict ≢ None → (result ≡ verdict) × (reply.new ≡ reply.old) }
    ensures waits { verdict ≡ None → length elements.now < element_count circuit.now.parts →
        (result ≡ None) × (reply.new ≡ reply.old)
        × (ending.new.challenges ≡ ending.old.challenges) }
    ensures ends { verdict ≡ None → length elements.now ≡ element_count circuit.now.parts →
        EndsWith (verdict_of (claim_of circuit.now.parts inputs.now outputs.now)
        (messages_in (lower circuit.now.parts) elements.now) ending.old.challenges)
        (8 * challenges_of circuit.now.parts) reply.old reply.new result }
{
    if verdict.is_some() {
        return verdict;
    }
    if elements.len() < elements_due(circuit) {
        return verdict;
    }
    let verdict = ending.verdict(circuit, inputs, outputs, elements);
    Some(write_end(reply, verdict))
}

/// Writes what the verifier sends last, and hands the verdict back.
fn write_end(reply: &mut [u8], verdict: Verdict) -> Verdict
    requires { 0 < length reply.old }
    ensures same { result ≡ verdict }
    ensures before { (n : ℕ) → length reply.old ≡ n + 1 → take n reply.new ≡ take n reply.old }
    ensures end { (n : ℕ) → length reply.old ≡ n + 1 → drop n reply.new ≡ last_byte verdict ∷ [] }
{
    let end = reply.len() - 1;
    reply[end] = match verdict {
        Verdict::Accepted => 1,
        _ => 0,
    };
    verdict
}
