//! A run whose reply is handed out.

ghost use Rattle.std.specs.Prelude.{◌≡◌};
ghost use Rattle.gkr_c.specs.Handed.{HandsOut, IsPut};

use crate::slice_source::SliceSource;
use crate::vec_sink::VecSink;
use gkr_cmd::run_command;
use gkr_words::CaseCommand;
use std::alloc::Global;

/// The number of a choice that isn't offered, as of words that are no command.
const USAGE: u8 = 2;

/// Puts a text at the beginning of the room, where it fits, and its length into `needed`.
pub(crate) fn put(text: &[u8], room: &mut [u8], needed: &mut usize)
    ensures { IsPut text.now room.old room.new needed.new }
{
    *needed = text.len();
    if text.len() <= room.len() {
        room[..text.len()].copy_from_slice(text);
    }
}

/// Runs the command on the input, answers the number of its status, and hands out what it wrote: at
/// the beginning of `reply`, where it fits, and its length in `needed`.
pub(crate) fn hand_out(
    alloc: Global,
    command: CaseCommand,
    input: &[u8],
    reply: &mut [u8],
    needed: &mut usize,
) -> u8
    ensures { HandsOut command input.now reply.old reply.new needed.new result }
{
    let mut source = SliceSource::new(input);
    let mut sink = VecSink::new(alloc);
    let status = run_command(alloc, command, &mut source, &mut sink);
    put(sink.bytes(), reply, needed);
    status.code()
}

/// Hands nothing out, since a choice isn't offered.
pub(crate) fn refuse(needed: &mut usize) -> u8
    ensures number { result ≡ 2 }
    ensures needed { needed.new ≡ 0 }
{
    *needed = 0;
    USAGE
}
