//! Methods.

ghost use Rattle.std.specs.Prelude.{◌≤◌, length};
ghost use Rattle.cfj_model.specs.Print.{texts};
ghost use Rattle.fj_printer.specs.Adds.{Adds};
ghost use Rattle.fj_printer.specs.Parts.{method_head_text};
ghost use Rattle.fj_printer.specs.Shown.{names, shown_methods, shown_method_text};

use crate::buffer::Buffer;
use crate::ctors::params;
use crate::exprs::expr;
use crate::marks::marked;
use crate::pieces::add_all;
use crate::showing::Showing;
use cfj_model::{Items, Method};
use cide_io::{Failed, Sink};

/// Adds methods, each on a line.
pub fn methods<K: Sink>(
    buffer: &mut Buffer,
    sink: &mut K,
    showing: &Showing<'_>,
    methods: &Items<Method>,
) -> Result<(), Failed>
    requires { length (names showing.now) ≤ 128 }
    ensures { Adds K.held K.name K.faults sink.old buffer.old sink.new buffer.new (texts (shown_method_text showing.now) (shown_methods showing.now methods.now)) result }
{
    let list = methods.slice();
    'methods: for item in list {
        if showing.shows(item.colors) {
            method(buffer, sink, showing, item)?;
        }
    }
    Ok(())
}

fn method<K: Sink>(
    buffer: &mut Buffer,
    sink: &mut K,
    showing: &Showing<'_>,
    method: &Method,
) -> Result<(), Failed>
    requires { length (names showing.now) ≤ 128 }
    ensures { Adds K.held K.name K.faults sink.old buffer.old sink.new buffer.new (shown_method_text showing.now method.now) result }
{
    head(buffer, sink, showing, method)?;
    params(buffer, sink, showing, &method.params)?;
    add_all(buffer, sink, &[") { return "])?;
    expr(buffer, sink, showing, &method.body)?;
    add_all(buffer, sink, &["; }\n"])
}

fn head<K: Sink>(
    buffer: &mut Buffer,
    sink: &mut K,
    showing: &Showing<'_>,
    method: &Method,
) -> Result<(), Failed>
    requires { length (names showing.now) ≤ 128 }
    ensures { Adds K.held K.name K.faults sink.old buffer.old sink.new buffer.new (method_head_text (names showing.now) method.now) result }
{
    let rest = [method.result.text(), " ", method.name.text(), "("];
    marked(buffer, sink, showing, "  ", method.colors, &rest)
}
