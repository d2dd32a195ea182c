//! Requests.

use cfj_model::{Edit, Items, Name, Text};

/// What a line of a session asks.
#[derive(Debug, Drop)]
pub enum Request {
    /// An edit of the project.
    Edit {
        /// The version that it was made for.
        base: u32,
        /// The edit.
        edit: Edit,
    },
    /// A publication of what was edited.
    Refresh,
    /// The numbers of the last edition.
    Read,
    /// The findings of the last edition.
    Entries,
    /// The text of the last edition.
    Source,
    /// The text of a variant of the last edition.
    Export {
        /// The features that are selected.
        select: Items<Name>,
    },
    /// The nodes of the last edition that are marked with a feature.
    View {
        /// The feature, by a text that may be no feature's name.
        feature: Text,
    },
    /// The end of the session.
    Done,
}
