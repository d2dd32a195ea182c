//! The marks of a node.

ghost use Rattle.std.specs.Prelude.{◌<◌, ◌≤◌, ◌++◌, length};
ghost use Rattle.cfj_model.specs.Print.{texts, mark_text, marks_text};
ghost use Rattle.fj_printer.specs.Adds.{Adds};
ghost use Rattle.fj_printer.specs.Shown.{names};

use crate::buffer::Buffer;
use crate::pieces::{add_all, add_text};
use crate::showing::Showing;
use cfj_model::{Colors, Name};
use cide_io::{Failed, Sink};

/// Adds a node: what stands before it, its marks, and the pieces of the rest.
pub fn marked<K: Sink>(
    buffer: &mut Buffer,
    sink: &mut K,
    showing: &Showing<'_>,
    before: &str,
    colors: Colors,
    rest: &[&str],
) -> Result<(), Failed>
    requires { length (names showing.now) ≤ 128 }
    ensures { Adds K.held K.name K.faults sink.old buffer.old sink.new buffer.new (before.now ++ (marks_text (names showing.now) colors ++ texts (λ text. text.now) rest.now)) result }
{
    add_text(buffer, sink, before)?;
    marks(buffer, sink, showing, colors)?;
    add_all(buffer, sink, rest)
}

/// Adds the marks of a node, in declaration order.
pub fn marks<K: Sink>(
    buffer: &mut Buffer,
    sink: &mut K,
    showing: &Showing<'_>,
    colors: Colors,
) -> Result<(), Failed>
    requires { length (names showing.now) ≤ 128 }
    ensures { Adds K.held K.name K.faults sink.old buffer.old sink.new buffer.new (marks_text (names showing.now) colors) result }
{
    let features = showing.features();
    'features: for (number, feature) in features.iter().enumerate() {
        mark(buffer, sink, number as u8, feature, colors)?;
    }
    Ok(())
}

// Adds the mark of one feature where it is among the colours, as one that is wanted or as one that isn't.
fn mark<K: Sink>(
    buffer: &mut Buffer,
    sink: &mut K,
    number: u8,
    feature: &Name,
    colors: Colors,
) -> Result<(), Failed>
    requires { number < 128 }
    ensures { Adds K.held K.name K.faults sink.old buffer.old sink.new buffer.new (mark_text colors (number, feature.now)) result }
{
    if colors.has(number, false) {
        add_all(buffer, sink, &["@", feature.text(), " "])
    } else if colors.has(number, true) {
        add_all(buffer, sink, &["@!", feature.text(), " "])
    } else {
        Ok(())
    }
}
