//! The line for format two, and the feature line.

ghost use Rattle.std.specs.Prelude.{◌++◌};
ghost use Rattle.cfj_model.specs.Print.{joined, name_text, format_text, features_text};
ghost use Rattle.fj_printer.specs.Adds.{Adds};

use crate::buffer::Buffer;
use crate::pieces::{add_all, add_text};
use cfj_model::{Format, Name};
use cide_io::{Failed, Sink};

/// Adds the line for format two, where it is that.
pub fn format_line<K: Sink>(buffer: &mut Buffer, sink: &mut K, format: Format) -> Result<(), Failed>
    ensures { Adds K.held K.name K.faults sink.old buffer.old sink.new buffer.new (format_text format) result }
{
    match format {
        Format::One => Ok(()),
        Format::Two => add_text(buffer, sink, "format2;\n"),
    }
}

/// Adds the feature line, where there are features.
pub fn feature_line<K: Sink>(
    buffer: &mut Buffer,
    sink: &mut K,
    features: &[Name],
) -> Result<(), Failed>
    ensures { Adds K.held K.name K.faults sink.old buffer.old sink.new buffer.new (features_text features.now) result }
{
    if features.is_empty() {
        return Ok(());
    }
    add_all(buffer, sink, &["features "])?;
    names(buffer, sink, features)?;
    add_all(buffer, sink, &[";\n"])
}

fn names<K: Sink>(buffer: &mut Buffer, sink: &mut K, names: &[Name]) -> Result<(), Failed>
    ensures { Adds K.held K.name K.faults sink.old buffer.old sink.new buffer.new (joined name_text names.now) result }
{
    let mut separator = "";
    'names: for item in names {
        name(buffer, sink, separator, item)?;
        separator = ", ";
    }
    Ok(())
}

fn name<K: Sink>(
    buffer: &mut Buffer,
    sink: &mut K,
    separator: &str,
    name: &Name,
) -> Result<(), Failed>
    ensures { Adds K.held K.name K.faults sink.old buffer.old sink.new buffer.new (separator.now ++ name.now) result }
{
    add_all(buffer, sink, &[separator, name.text()])
}
