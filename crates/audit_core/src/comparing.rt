//! The messages of a proof beside the true ones.

ghost use Rattle.std.specs.Prelude.{◌≡◌, ◌+◌, ◌^◌, ◌≤◌, ◌<◌, List, length};
ghost use Rattle.field_ext.specs.Field.{K};
ghost use Rattle.proof_wire.specs.Lists.{messages_of, all_messages};
ghost use Rattle.audit_core.specs.Found.{IsFoundBelow, IsAt, AreAlike};

use crate::found::Found;
use field_ext::Ext;
use proof_wire::LayerMessages;

/// Compares the messages with the true ones, where `drawn` are the challenges after them.
pub(crate) fn compare(messages: &[LayerMessages], truth: &[LayerMessages], drawn: &[Ext]) -> Found
    requires alike { AreAlike messages.now truth.now }
    requires drawn { length (all_messages messages.now) ≤ length drawn.now }
    requires few { length drawn.now < 2 ^ 32 }
    ensures { IsFoundBelow (all_messages messages.now) (all_messages truth.now) drawn.now
        (length (all_messages messages.now)) result }
{
    let mut found = Found::nothing();
    let mut number = 0;
    for layer in 0..messages.len() {
        let proved = &messages[layer];
        found = compare_layer(found, number, proved, &truth[layer], drawn);
        number += proved.rounds.as_slice().len() + 1;
    }
    found
}

/// Compares the messages of a layer, of which the first has this number, after those that were compared before.
fn compare_layer(
    before: Found,
    number: usize,
    messages: &LayerMessages,
    truth: &LayerMessages,
    drawn: &[Ext],
) -> Found
    requires rounds { length truth.now.rounds ≡ length messages.now.rounds }
    requires last { length truth.now.last ≡ length messages.now.last }
    requires drawn { number + length messages.now.rounds < length drawn.now }
    requires few { length drawn.now < 2 ^ 32 }
    ensures { (qs ts : List (List K)) → IsFoundBelow qs ts drawn.now number before
        → IsAt qs number (messages_of messages.now) → IsAt ts number (messages_of truth.now)
        → IsFoundBelow qs ts drawn.now (number + length (messages_of messages.now)) result }
{
    let mut found = before;
    let rounds = messages.rounds.as_slice();
    let true_rounds = truth.rounds.as_slice();
    for j in 0..rounds.len() {
        let message = rounds[j].coefficients();
        let true_message = true_rounds[j].coefficients();
        found = found.with(number + j, &message, &true_message, drawn[number + j]);
    }
    let last = number + rounds.len();
    found.with(
        last,
        messages.last.as_slice(),
        truth.last.as_slice(),
        drawn[last],
    )
}
