//! Classes and their fields.

ghost use Rattle.std.specs.Prelude.{◌≡◌, ◌≤◌, true, length};
ghost use Rattle.cfj_model.specs.Print.{texts, field_text};
ghost use Rattle.fj_printer.specs.Adds.{Adds};
ghost use Rattle.fj_printer.specs.Parts.{class_head_text};
ghost use Rattle.fj_printer.specs.Shown.{names, shows, shown_fields, shown_class_text};

use crate::buffer::Buffer;
use crate::ctors::ctor;
use crate::marks::marked;
use crate::methods::methods;
use crate::pieces::add_all;
use crate::showing::Showing;
use cfj_model::{Class, Field, Items};
use cide_io::{Failed, Sink};

/// Adds a class that is printed, on lines.
pub fn class<K: Sink>(
    buffer: &mut Buffer,
    sink: &mut K,
    showing: &Showing<'_>,
    class: &Class,
) -> Result<(), Failed>
    requires few { length (names showing.now) ≤ 128 }
    requires shown { shows showing.now class.now.colors ≡ true }
    ensures { Adds K.held K.name K.faults sink.old buffer.old sink.new buffer.new (shown_class_text showing.now class.now) result }
{
    head(buffer, sink, showing, class)?;
    fields(buffer, sink, showing, &class.fields)?;
    ctor(buffer, sink, showing, &class.name, &class.ctor)?;
    methods(buffer, sink, showing, &class.methods)?;
    add_all(buffer, sink, &["}\n"])
}

fn head<K: Sink>(
    buffer: &mut Buffer,
    sink: &mut K,
    showing: &Showing<'_>,
    class: &Class,
) -> Result<(), Failed>
    requires { length (names showing.now) ≤ 128 }
    ensures { Adds K.held K.name K.faults sink.old buffer.old sink.new buffer.new (class_head_text (names showing.now) class.now) result }
{
    let name = class.name.text();
    let parent = class.parent.text();
    let rest = ["class ", name, " extends ", parent, " {\n"];
    marked(buffer, sink, showing, "", class.colors, &rest)
}

fn fields<K: Sink>(
    buffer: &mut Buffer,
    sink: &mut K,
    showing: &Showing<'_>,
    fields: &Items<Field>,
) -> Result<(), Failed>
    requires { length (names showing.now) ≤ 128 }
    ensures { Adds K.held K.name K.faults sink.old buffer.old sink.new buffer.new (texts (field_text (names showing.now)) (shown_fields showing.now fields.now)) result }
{
    let list = fields.slice();
    'fields: for item in list {
        if showing.shows(item.colors) {
            field(buffer, sink, showing, item)?;
        }
    }
    Ok(())
}

fn field<K: Sink>(
    buffer: &mut Buffer,
    sink: &mut K,
    showing: &Showing<'_>,
    field: &Field,
) -> Result<(), Failed>
    requires { length (names showing.now) ≤ 128 }
    ensures { Adds K.held K.name K.faults sink.old buffer.old sink.new buffer.new (field_text (names showing.now) field.now) result }
{
    let of = field.of.text();
    let name = field.name.text();
    let rest = [of, " ", name, ";\n"];
    marked(buffer, sink, showing, "  ", field.colors, &rest)
}
