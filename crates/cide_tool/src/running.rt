//! A run, from its words to its status.
ghost use Rattle.std.specs.Prelude.{map, string_bytes};
ghost use Rattle.cide_io.specs.Faults.{Rose};
ghost use Rattle.cide_io.specs.Changes.{Gains, IsGiven, OnlyReads};
ghost use Rattle.command_words.specs.Asked.{asked};
ghost use Rattle.cide_tool.specs.Endings.{IsRun};
ghost use Rattle.cide_tool.specs.Refusals.{IsAnswer};

use crate::check::check;
use crate::export::export;
use crate::migrate::migrate;
use crate::refusal::Refusal;
use cide_io::{Room, Sink, put_all};
use command_words::{Asked, read_words};
use std::alloc::{AllocGlobal, Global};

/// Does what the words ask.
fn answer<R: Room, O: Sink>(
    alloc: Global,
    words: &[String],
    room: &mut R,
    out: &mut O,
) -> Result<u8, Refusal>
    ensures answer { IsAnswer (R.input room.old) (Rose (R.read_faults room.old) (R.read_faults room.new))
        (Gains O.Sink out.old out.new) (asked (map string_bytes words.now)) result }
    ensures frame { OnlyReads R.Room room.old room.new }
{
    match read_words(alloc, words)? {
        Asked::Check { project, budget } => check(alloc, project, budget, room, out),
        Asked::Migrate { project } => migrate(alloc, project, room, out),
        Asked::Export { project, names } => export(alloc, project, names, room, out),
    }
}

/// Gives a line to a sink. Where the sink fails there is nobody to tell, and the run goes on.
fn say<E: Sink>(err: &mut E, line: &str)
    ensures { IsGiven E.Sink err.old err.new line.now }
{
    let _ = put_all(err, line.as_bytes());
}

/// Does what the words after the program's name ask, says on `err` what went wrong, and gives the status to end with.
///
/// It waits for nobody, and every input that it opens is handed back to the room. A failure of `err` changes nothing.
pub fn run_plain<T: AllocGlobal, R: Room, O: Sink, E: Sink>(
    rt: &T,
    words: &[String],
    room: &mut R,
    out: &mut O,
    err: &mut E,
) -> u8
    ensures answer { IsRun (R.input room.old) (Rose (R.read_faults room.old) (R.read_faults room.new))
        (Gains O.Sink out.old out.new) (IsGiven E.Sink err.old err.new) (asked (map string_bytes words.now)) result }
    ensures frame { OnlyReads R.Room room.old room.new }
{
    match answer(rt.alloc(), words, room, out) {
        Ok(status) => status,
        Err(refusal) => {
            say(err, refusal.line());
            refusal.status()
        }
    }
}

/// Does what the words after the program's name ask, says on `err` what went wrong, and gives the status to end with.
///
/// No command that is built needs more than [`run_plain`], which waits for nobody.
pub fn run<T: AllocGlobal, R: Room, O: Sink, E: Sink>(
    rt: &T,
    words: &[String],
    room: &mut R,
    out: &mut O,
    err: &mut E,
) -> u8
    ensures answer { IsRun (R.input room.old) (Rose (R.read_faults room.old) (R.read_faults room.new))
        (Gains O.Sink out.old out.new) (IsGiven E.Sink err.old err.new) (asked (map string_bytes words.now)) result }
    ensures frame { OnlyReads R.Room room.old room.new }
{
    run_plain(rt, words, room, out, err)
}
