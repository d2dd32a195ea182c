//! What is wanted of a selection.

ghost use Rattle.std.specs.Prelude.{◌<◌, ◌≤◌, [], ◌∷◌, ◌++◌, length, flat_map, if◌then◌else◌, false};
ghost use Rattle.std.specs.List.{enumerate_from};
ghost use Rattle.cfj_model.specs.Print.{signed_names, presence_text};
ghost use Rattle.fj_printer.specs.Adds.{Adds};
ghost use Rattle.fj_printer.specs.Parts.{spaced_on};

use crate::buffer::Buffer;
use crate::pieces::{add_all, add_text};
use cfj_model::{Colors, Name};
use cide_io::{Failed, Sink};

/// Adds what marks want of a selection, in brackets and in declaration order: `A` where the feature is wanted, `!A` where it isn't,
/// and both where a node's marks and those round it say both.
///
/// # Errors
///
/// The sink failed.
pub fn add_presence<K: Sink>(
    buffer: &mut Buffer,
    sink: &mut K,
    features: &[Name],
    colors: Colors,
) -> Result<(), Failed>
    requires { length features.now ≤ 128 }
    ensures { Adds K.held K.name K.faults sink.old buffer.old sink.new buffer.new (presence_text features.now colors) result }
{
    add_text(buffer, sink, "[")?;
    names(buffer, sink, features, colors)?;
    add_text(buffer, sink, "]")
}

fn names<K: Sink>(
    buffer: &mut Buffer,
    sink: &mut K,
    features: &[Name],
    colors: Colors,
) -> Result<(), Failed>
    requires { length features.now ≤ 128 }
    ensures { Adds K.held K.name K.faults sink.old buffer.old sink.new buffer.new (spaced_on false (flat_map (signed_names colors) (enumerate_from 0 features.now))) result }
{
    let mut begun = false;
    'features: for (number, feature) in features.iter().enumerate() {
        let number = number as u8;
        signed(buffer, sink, begun, number, feature, colors)?;
        begun |= colors.is_marked(number);
    }
    Ok(())
}

// Adds what is wanted of one feature. It stands behind a space where something has begun.
fn signed<K: Sink>(
    buffer: &mut Buffer,
    sink: &mut K,
    begun: bool,
    number: u8,
    feature: &Name,
    colors: Colors,
) -> Result<(), Failed>
    requires { number < 128 }
    ensures { Adds K.held K.name K.faults sink.old buffer.old sink.new buffer.new (spaced_on begun (signed_names colors (number, feature.now))) result }
{
    let wanted = colors.has(number, false);
    let unwanted = colors.has(number, true);
    one(buffer, sink, begun, wanted, "", feature)?;
    one(buffer, sink, begun | wanted, unwanted, "!", feature)
}

// Adds a name behind its sign, where it is there.
fn one<K: Sink>(
    buffer: &mut Buffer,
    sink: &mut K,
    begun: bool,
    is_there: bool,
    sign: &str,
    name: &Name,
) -> Result<(), Failed>
    ensures { Adds K.held K.name K.faults sink.old buffer.old sink.new buffer.new (spaced_on begun (if is_there then (sign.now ++ name.now) ∷ [] else [])) result }
{
    if !is_there {
        Ok(())
    } else if begun {
        add_all(buffer, sink, &[" ", sign, name.text()])
    } else {
        add_all(buffer, sink, &[sign, name.text()])
    }
}
