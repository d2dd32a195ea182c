//! Which nodes are printed, and whether with their marks.

ghost use Rattle.std.specs.Prelude.{◌≡◌};
ghost use Rattle.fj_printer.specs.Shown.{names, shows};

use cfj_model::{Colors, Name, Selection};

/// Which nodes of a project are printed, and how.
#[derive(Clone, Copy)]
pub enum Showing<'a> {
    /// All of them, with their marks of these features.
    Marked(&'a [Name]),
    /// Those that are present under this selection, without marks.
    Selected(&'a Selection),
}

impl<'a> Showing<'a> {
    /// Whether a node of these colours is printed where all that stands round it is.
    pub fn shows(&self, colors: Colors) -> bool
        ensures { result ≡ shows self.now colors }
    {
        match self {
            Showing::Marked(_) => true,
            Showing::Selected(selection) => colors.is_kept_by(selection),
        }
    }

    /// The features whose marks are printed.
    pub fn features(&self) -> &'a [Name]
        ensures { result.now ≡ names self.now }
    {
        match self {
            Showing::Marked(features) => *features,
            Showing::Selected(_) => &[],
        }
    }
}
