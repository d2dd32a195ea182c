//! Whole projects, variants and classes.

ghost use Rattle.std.specs.Prelude.{◌≡◌, ◌≤◌, true, length};
ghost use Rattle.cfj_model.specs.Coloring.{palette_of};
ghost use Rattle.cfj_model.specs.Print.{texts, class_text, printed, plain_printed};
ghost use Rattle.cfj_model.specs.ProductLines.{IsPlain, in_format_two, is_class};
ghost use Rattle.cfj_model.specs.Projection.{projected};
ghost use Rattle.cide_io.specs.Changes.{Gains};
ghost use Rattle.fj_printer.specs.Adds.{Adds};
ghost use Rattle.fj_printer.specs.Parts.{in_format};
ghost use Rattle.fj_printer.specs.Shown.{names, shown_class_text, shown_classes};

use crate::buffer::Buffer;
use crate::classes::class as add_class;
use crate::features::{feature_line, format_line};
use crate::formulas::constraint_lines;
use crate::pieces::flush;
use crate::showing::Showing;
use cfj_model::{Class, FeatureModel, Format, Project, Selection};
use cide_io::{Failed, Sink};

/// Appends the printed form of a project to what a sink holds, in pieces of up to 4,096 bytes: the line for format two where the
/// project is of that, the feature line, a line for each constraint, and the classes with their marks.
///
/// After a failure the sink holds a proper prefix of that form behind what it held. No memory is taken.
pub fn print_project<K: Sink>(project: &Project, sink: &mut K) -> Result<(), Failed>
    ensures { Gains K.Sink sink.old sink.new (printed project.now) result }
{
    let format = project.model().format;
    print_in(project, format, sink)
}

/// Appends the printed form that a project has in format two, where its marks mean what they meant, to what a sink holds, in pieces
/// of up to 4,096 bytes. The project in format two itself isn't made.
///
/// After a failure the sink holds a proper prefix of that form behind what it held. No memory is taken.
pub fn print_migrated<K: Sink>(project: &Project, sink: &mut K) -> Result<(), Failed>
    ensures { Gains K.Sink sink.old sink.new (printed (in_format_two project.now)) result }
{
    print_in(project, Format::Two, sink)
}

// Appends the printed form of a project as one of this format.
fn print_in<K: Sink>(project: &Project, format: Format, sink: &mut K) -> Result<(), Failed>
    ensures { Gains K.Sink sink.old sink.new (printed (in_format format project.now)) result }
{
    let model = project.model();
    let features = model.features.slice();
    let mut buffer = Buffer::new();
    format_line(&mut buffer, sink, format)?;
    feature_line(&mut buffer, sink, features)?;
    constraint_lines(&mut buffer, sink, features, model.constraints.slice())?;
    let showing = Showing::Marked(features);
    classes(&mut buffer, sink, &showing, project)?;
    flush(&mut buffer, sink)
}

/// Appends the printed form of a plain project, its classes alone, to what a sink holds, in pieces of up to 4,096 bytes.
///
/// After a failure the sink holds a proper prefix of that form behind what it held. No memory is taken.
pub fn print_plain<K: Sink>(project: &Project, sink: &mut K) -> Result<(), Failed>
    requires { IsPlain project.now }
    ensures { Gains K.Sink sink.old sink.new (plain_printed project.now.classes) result }
{
    let showing = Showing::Marked(&[]);
    print_classes(project, &showing, sink)
}

/// Appends the printed form of the variant of a selection of the project's features, its classes alone, to what a sink holds, in
/// pieces of up to 4,096 bytes. Each node is printed from the project where it is present; the variant itself isn't made.
///
/// After a failure the sink holds a proper prefix of that form behind what it held. No memory is taken.
pub fn print_variant<K: Sink>(
    project: &Project,
    selection: &Selection,
    sink: &mut K,
) -> Result<(), Failed>
    requires { selection.now.features ≡ length project.now.model.features }
    ensures { Gains K.Sink sink.old sink.new (plain_printed (projected selection.now project.now).classes) result }
{
    let showing = Showing::Selected(selection);
    print_classes(project, &showing, sink)
}

/// Appends the printed form of a class, with its marks, to what a sink holds, in pieces of up to 4,096 bytes.
///
/// After a failure the sink holds a proper prefix of that form behind what it held. No memory is taken.
pub fn print_class<K: Sink>(class: &Class, model: &FeatureModel, sink: &mut K) -> Result<(), Failed>
    requires few { length model.now.features ≤ 128 }
    requires known { is_class (palette_of model.now) class.now ≡ true }
    ensures { Gains K.Sink sink.old sink.new (class_text model.now.features class.now) result }
{
    let mut buffer = Buffer::new();
    let showing = Showing::Marked(model.features.slice());
    add_class(&mut buffer, sink, &showing, class)?;
    flush(&mut buffer, sink)
}

// Appends the classes of a project, and nothing else.
fn print_classes<K: Sink>(
    project: &Project,
    showing: &Showing<'_>,
    sink: &mut K,
) -> Result<(), Failed>
    requires { length (names showing.now) ≤ 128 }
    ensures { Gains K.Sink sink.old sink.new
        (texts (shown_class_text showing.now) (shown_classes showing.now project.now.classes)) result }
{
    let mut buffer = Buffer::new();
    classes(&mut buffer, sink, showing, project)?;
    flush(&mut buffer, sink)
}

fn classes<K: Sink>(
    buffer: &mut Buffer,
    sink: &mut K,
    showing: &Showing<'_>,
    project: &Project,
) -> Result<(), Failed>
    requires { length (names showing.now) ≤ 128 }
    ensures { Adds K.held K.name K.faults sink.old buffer.old sink.new buffer.new (texts (shown_class_text showing.now) (shown_classes showing.now project.now.classes)) result }
{
    'classes: for place in 0..project.class_count() {
        let class = project.class(place);
        if showing.shows(class.colors) {
            add_class(buffer, sink, showing, class)?;
        }
    }
    Ok(())
}
