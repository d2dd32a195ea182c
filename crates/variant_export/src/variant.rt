//! The print of a valid selection's variant.
ghost use Rattle.std.specs.Prelude.{◌≡◌, length};
ghost use Rattle.cide_io.specs.Changes.{Gains};
ghost use Rattle.variant_export.specs.Exports.{IsExport};

use cfj_model::{Project, Selection};
use cide_io::Sink;
use feature_model::{Failing, valid};
use fj_printer::print_variant;

/// Why a variant isn't printed whole.
#[derive(Clone, Copy, Debug, PartialEq, Eq)]
pub enum ExportFault {
    /// The constraint of this number, from 0, is the first that is false.
    InvalidSelection(usize),
    /// The sink took no more.
    WriteFault,
}

/// Appends the printed form of the variant of a selection of the project's features to what a sink holds, where the selection
/// is valid.
///
/// Where it isn't, nothing is put. After a write fault the sink holds a proper prefix of the print behind what it held. No memory is
/// taken.
pub fn export<K: Sink>(
    project: &Project,
    selection: &Selection,
    sink: &mut K,
) -> Result<(), ExportFault>
    requires { selection.now.features ≡ length project.now.model.features }
    ensures { IsExport project.now selection.now (Gains K.Sink sink.old sink.new) result }
{
    if let Err(Failing(at)) = valid(project.model(), selection) {
        return Err(ExportFault::InvalidSelection(at));
    }
    match print_variant(project, selection, sink) {
        Ok(()) => Ok(()),
        Err(_) => Err(ExportFault::WriteFault),
    }
}
