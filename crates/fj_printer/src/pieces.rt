//! Pieces of text, through the buffer into the sink.

ghost use Rattle.std.specs.Prelude.{◌≡◌, ◌<◌, [], length, OnOk};
ghost use Rattle.cfj_model.specs.Print.{texts};
ghost use Rattle.fj_printer.specs.Adds.{Adds};

use crate::buffer::{Buffer, ROOM};
use cide_io::{Failed, Sink};

/// Puts all that waits into the sink.
///
/// # Errors
///
/// The sink failed: it holds a proper prefix of what waited behind what it held.
pub fn flush<K: Sink>(buffer: &mut Buffer, sink: &mut K) -> Result<(), Failed>
    ensures adds { Adds K.held K.name K.faults sink.old buffer.old sink.new buffer.new [] result }
    ensures empty { OnOk result (buffer.new ≡ []) }
{
    let waiting = buffer.slice();
    let mut put = 0;
    'puts: while put < waiting.len() {
        put += sink.put(&waiting[put..])?;
    }
    buffer.clear();
    Ok(())
}

// Sees that at least one byte fits, and puts what waits only where none would.
fn make_room<K: Sink>(buffer: &mut Buffer, sink: &mut K) -> Result<(), Failed>
    ensures adds { Adds K.held K.name K.faults sink.old buffer.old sink.new buffer.new [] result }
    ensures room { OnOk result (length buffer.new < ROOM) }
{
    if buffer.is_full() {
        flush(buffer, sink)
    } else {
        Ok(())
    }
}

// Adds a text. What does not fit behind the bytes that wait goes on once they are put.
fn add<K: Sink>(buffer: &mut Buffer, sink: &mut K, text: &[u8]) -> Result<(), Failed>
    ensures { Adds K.held K.name K.faults sink.old buffer.old sink.new buffer.new text.now result }
{
    let mut added = 0;
    'fills: while added < text.len() {
        make_room(buffer, sink)?;
        added += buffer.fill(&text[added..]);
    }
    Ok(())
}

/// Adds a text. It goes behind the bytes that wait, and what doesn't fit there goes on once these are put into the sink.
///
/// # Errors
///
/// The sink failed.
pub fn add_text<K: Sink>(buffer: &mut Buffer, sink: &mut K, text: &str) -> Result<(), Failed>
    ensures { Adds K.held K.name K.faults sink.old buffer.old sink.new buffer.new text.now result }
{
    add(buffer, sink, text.as_bytes())
}

/// Adds texts, one after another.
///
/// # Errors
///
/// The sink failed.
pub fn add_all<K: Sink>(buffer: &mut Buffer, sink: &mut K, list: &[&str]) -> Result<(), Failed>
    ensures { Adds K.held K.name K.faults sink.old buffer.old sink.new buffer.new (texts (λ text. text.now) list.now) result }
{
    'texts: for text in list {
        add(buffer, sink, text.as_bytes())?;
    }
    Ok(())
}
