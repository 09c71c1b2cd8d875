//! The rounds of a layer.

ghost use Rattle.std.specs.Prelude.{◌≡◌, ◌+◌, ◌≤◌, IfOk, None, [], IsTrue};
ghost use Rattle.gkr_prove.specs.Rounds.{IsNoted, AreBegun, IsLineAhead};

use field_ext::Ext;
use mle_table::BaseTable;
use proof_wire::{ProofForm, Round};
use round_tables::{Buffers, GateTables, OpenTables};
use std::alloc::{AllocError, Global};
use sumcheck_prove::{Entry, round_alone};
use transcript_fs::Challenges;

/// The messages of all rounds of a layer, the challenge after each, the buffers that the layer used, and the coefficients of its
/// line, where workers have worked it.
#[derive(Drop)]
pub(crate) struct ProvedRounds {
    pub(crate) messages: Vec<Round>,
    pub(crate) drawn: Vec<Ext>,
    pub(crate) buffers: Buffers,
    pub(crate) line: Option<Vec<Ext>>,
}

/// What proves the rounds of one layer after another.
pub(crate) trait Rounds<'a> {
    /// What has to hold of it before a layer, and holds after.
    ghost ready: { Self → Type 0 };

    /// Proves all rounds of a layer over values of the base field, and may work the layer's line too. Err only where no memory is found.
    fn rounds<C: Challenges>(
        &mut self,
        alloc: Global,
        form: ProofForm,
        tables: OpenTables<'a>,
        values: &'a BaseTable,
        challenges: &mut C,
    ) -> Result<ProvedRounds, AllocError>
        requires ready { ready self.old }
        requires begun { tables.bound ≡ [] }
        requires most { values.now.k ≤ 20 }
        requires k { tables.k ≡ values.now.k }
        requires has { IsTrue (C.source.has (C.state challenges.old) (tables.k + tables.k)) }
        ensures rounds { IfOk result (λ rounds. AreBegun C.source tables.entry
            (C.state challenges.old) (tables.entry.k + tables.entry.k) rounds.messages.items
            rounds.drawn.items (C.state challenges.new)) }
        ensures line { IfOk result (λ rounds. IsLineAhead values.now.k values.now.items
            rounds.drawn.items rounds.line) }
        ensures ready { IfOk result (λ _. ready self.new) };
}

/// The calling thread, which passes an entry with each piece of a round.
#[derive(Drop)]
pub(crate) struct Alone<E> {
    pub(crate) entry: E,
}

impl<'a, E: Entry> Rounds<'a> for Alone<E> {
    ghost use Rattle.std.specs.Prelude.{⊤};

    ghost ready = { λ a. ⊤ };

    fn rounds<C: Challenges>(
        &mut self,
        alloc: Global,
        _form: ProofForm,
        tables: OpenTables<'a>,
        _values: &'a BaseTable,
        challenges: &mut C,
    ) -> Result<ProvedRounds, AllocError> {
        rounds_alone(alloc, tables.gathered(), challenges, &self.entry)
    }
}

/// Proves all rounds of a layer on the calling thread.
fn rounds_alone<C: Challenges, E: Entry>(
    alloc: Global,
    mut tables: GateTables<'_>,
    challenges: &mut C,
    entry: &E,
) -> Result<ProvedRounds, AllocError>
    requires begun { tables.bound ≡ [] }
    requires here { tables.lent ≡ [] }
    requires has { IsTrue (C.source.has (C.state challenges.old) (tables.k + tables.k)) }
    ensures rounds { IfOk result (λ rounds. AreBegun C.source tables.entry
        (C.state challenges.old) (tables.entry.k + tables.entry.k) rounds.messages.items
        rounds.drawn.items (C.state challenges.new)) }
    ensures line { IfOk result (λ rounds. rounds.line ≡ None) }
{
    let mut messages = Vec::new(alloc);
    let mut drawn = Vec::new(alloc);
    let count = tables.rounds_left();
    for _number in 0..count {
        let message = round_alone(&tables, entry);
        let challenge = note(challenges, message, &mut messages, &mut drawn)?;
        tables.bind(challenge);
    }
    let buffers = tables.into_buffers();
    Ok(ProvedRounds {
        messages,
        drawn,
        buffers,
        line: None,
    })
}

/// Takes a message in, draws the challenge after it, and notes both.
pub(crate) fn note<C: Challenges>(
    challenges: &mut C,
    message: [Ext; 3],
    messages: &mut Vec<Round>,
    drawn: &mut Vec<Ext>,
) -> Result<Ext, AllocError>
    requires has { IsTrue (C.source.has (C.source.absorb (C.state challenges.old) message) 1) }
    ensures { IfOk result (λ challenge. IsNoted C.source message challenge (C.state challenges.old)
        (C.state challenges.new) messages.old.items drawn.old.items messages.new.items
        drawn.new.items) }
{
    challenges.absorb(&message);
    let challenge = challenges.challenge();
    messages.push(Round::of(message))?;
    drawn.push(challenge)?;
    Ok(challenge)
}
