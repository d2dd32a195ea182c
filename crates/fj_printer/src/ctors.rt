//! Constructors, and lists of parameters.

ghost use Rattle.std.specs.Prelude.{◌≤◌, ◌++◌, length};
ghost use Rattle.cfj_model.specs.Print.{texts, joined, param_text, sent_text, assign_text, ctor_text};
ghost use Rattle.fj_printer.specs.Adds.{Adds};
ghost use Rattle.fj_printer.specs.Parts.{ctor_head_text};
ghost use Rattle.fj_printer.specs.Shown.{names, shown_params, shown_sents, shown_ctor};

use crate::buffer::Buffer;
use crate::marks::marked;
use crate::pieces::add_all;
use crate::showing::Showing;
use cfj_model::{Constructor, Items, Name, Param, Sent};
use cide_io::{Failed, Sink};

/// Adds the constructor of the class with this name, on a line.
pub fn ctor<K: Sink>(
    buffer: &mut Buffer,
    sink: &mut K,
    showing: &Showing<'_>,
    name: &Name,
    ctor: &Constructor,
) -> Result<(), Failed>
    requires { length (names showing.now) ≤ 128 }
    ensures { Adds K.held K.name K.faults sink.old buffer.old sink.new buffer.new (ctor_text (names showing.now) name.now (shown_ctor showing.now ctor.now)) result }
{
    head(buffer, sink, name)?;
    params(buffer, sink, showing, &ctor.params)?;
    add_all(buffer, sink, &[") { super("])?;
    sends(buffer, sink, showing, &ctor.sends)?;
    add_all(buffer, sink, &[");"])?;
    assigns(buffer, sink, showing, &ctor.assigns)?;
    add_all(buffer, sink, &[" }\n"])
}

fn head<K: Sink>(buffer: &mut Buffer, sink: &mut K, name: &Name) -> Result<(), Failed>
    ensures { Adds K.held K.name K.faults sink.old buffer.old sink.new buffer.new (ctor_head_text name.now) result }
{
    add_all(buffer, sink, &["  ", name.text(), "("])
}

/// Adds parameters, between commas.
pub fn params<K: Sink>(
    buffer: &mut Buffer,
    sink: &mut K,
    showing: &Showing<'_>,
    params: &Items<Param>,
) -> Result<(), Failed>
    requires { length (names showing.now) ≤ 128 }
    ensures { Adds K.held K.name K.faults sink.old buffer.old sink.new buffer.new (joined (param_text (names showing.now)) (shown_params showing.now params.now)) result }
{
    let list = params.slice();
    let mut separator = "";
    'params: for item in list {
        if showing.shows(item.colors) {
            param(buffer, sink, showing, separator, item)?;
            separator = ", ";
        }
    }
    Ok(())
}

fn param<K: Sink>(
    buffer: &mut Buffer,
    sink: &mut K,
    showing: &Showing<'_>,
    separator: &str,
    param: &Param,
) -> Result<(), Failed>
    requires { length (names showing.now) ≤ 128 }
    ensures { Adds K.held K.name K.faults sink.old buffer.old sink.new buffer.new (separator.now ++ param_text (names showing.now) param.now) result }
{
    let of = param.of.text();
    let name = param.name.text();
    let rest = [of, " ", name];
    marked(buffer, sink, showing, separator, param.colors, &rest)
}

fn sends<K: Sink>(
    buffer: &mut Buffer,
    sink: &mut K,
    showing: &Showing<'_>,
    sends: &Items<Sent>,
) -> Result<(), Failed>
    requires { length (names showing.now) ≤ 128 }
    ensures { Adds K.held K.name K.faults sink.old buffer.old sink.new buffer.new (joined (sent_text (names showing.now)) (shown_sents showing.now sends.now)) result }
{
    let list = sends.slice();
    let mut separator = "";
    'sends: for item in list {
        if showing.shows(item.colors) {
            sent(buffer, sink, showing, separator, item)?;
            separator = ", ";
        }
    }
    Ok(())
}

fn sent<K: Sink>(
    buffer: &mut Buffer,
    sink: &mut K,
    showing: &Showing<'_>,
    separator: &str,
    sent: &Sent,
) -> Result<(), Failed>
    requires { length (names showing.now) ≤ 128 }
    ensures { Adds K.held K.name K.faults sink.old buffer.old sink.new buffer.new (separator.now ++ sent_text (names showing.now) sent.now) result }
{
    let name = sent.name.text();
    marked(buffer, sink, showing, separator, sent.colors, &[name])
}

fn assigns<K: Sink>(
    buffer: &mut Buffer,
    sink: &mut K,
    showing: &Showing<'_>,
    assigns: &Items<Sent>,
) -> Result<(), Failed>
    requires { length (names showing.now) ≤ 128 }
    ensures { Adds K.held K.name K.faults sink.old buffer.old sink.new buffer.new (texts (assign_text (names showing.now)) (shown_sents showing.now assigns.now)) result }
{
    let list = assigns.slice();
    'assigns: for item in list {
        if showing.shows(item.colors) {
            assign(buffer, sink, showing, item)?;
        }
    }
    Ok(())
}

fn assign<K: Sink>(
    buffer: &mut Buffer,
    sink: &mut K,
    showing: &Showing<'_>,
    assign: &Sent,
) -> Result<(), Failed>
    requires { length (names showing.now) ≤ 128 }
    ensures { Adds K.held K.name K.faults sink.old buffer.old sink.new buffer.new (assign_text (names showing.now) assign.now) result }
{
    let name = assign.name.text();
    let rest = ["this.", name, " = ", name, ";"];
    marked(buffer, sink, showing, " ", assign.colors, &rest)
}
