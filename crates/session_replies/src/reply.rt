//! Replies.

ghost use Rattle.std.specs.Prelude.{◌≡◌};
ghost use Rattle.session_replies.specs.ReplyData.{verdict_text, name_reason_text};

use cfj_model::{Items, Text};
use edit_replies::EditReply;
use session_requests::BadLine;

/// What is answered to a line of a session. Each edition has a number, and a version: the number of edits that it has.
#[derive(Debug, Drop)]
pub enum Reply {
    /// To an edit.
    Edit(EditReply),
    /// To an edit or a refresh: the desk is full.
    Full,
    /// To a refresh: this edition was published.
    Published {
        edition: u32,
        version: u32,
    },
    /// To a refresh: the last edition has all accepted edits already.
    Already {
        edition: u32,
        version: u32,
    },
    /// The numbers of the last edition.
    Read {
        /// How many of its entries are broken.
        broken: u32,
        edition: u32,
        /// How many of its entries are undecided.
        undecided: u32,
        verdict: VerdictWord,
        version: u32,
    },
    /// The findings of the last edition.
    Entries {
        edition: u32,
        lines: Items<Text>,
        version: u32,
    },
    /// The nodes that are marked with a feature.
    View {
        edition: u32,
        lines: Items<Text>,
        version: u32,
    },
    /// The print of the last edition, of so many bytes, follows the line.
    Source {
        bytes: u64,
        edition: u32,
        version: u32,
    },
    /// The print of a variant, of so many bytes, follows the line.
    Variant {
        bytes: u64,
        edition: u32,
        version: u32,
    },
    /// To an export: this constraint is the first that is false under the selection.
    Invalid {
        constraint: u32,
        edition: u32,
        version: u32,
    },
    /// To an export or a view: this is the first name that is no feature's or was named before.
    BadNames {
        edition: u32,
        name: Text,
        reason: NameReason,
        version: u32,
    },
    /// To a line that is no request.
    BadLine(BadLine),
    /// To the end of the session.
    Done,
}

/// What is known of a feature model's selections.
#[derive(Clone, Copy, Debug, PartialEq, Eq)]
pub enum VerdictWord {
    /// There is a valid one.
    Valid,
    /// There is none.
    Void,
    /// It isn't known.
    Undecided,
}

/// What is wrong with a name in a list of features.
#[derive(Clone, Copy, Debug, PartialEq, Eq)]
pub enum NameReason {
    /// It is no feature's.
    NoFeature,
    /// It was named before.
    Twice,
}

impl VerdictWord {
    /// Its word.
    pub fn text(self) -> &'static str
        ensures { result.now ≡ verdict_text self }
    {
        match self {
            VerdictWord::Valid => "valid",
            VerdictWord::Void => "void",
            VerdictWord::Undecided => "undecided",
        }
    }
}

impl NameReason {
    /// Its word.
    pub fn text(self) -> &'static str
        ensures { result.now ≡ name_reason_text self }
    {
        match self {
            NameReason::NoFeature => "NoFeature",
            NameReason::Twice => "Twice",
        }
    }
}
