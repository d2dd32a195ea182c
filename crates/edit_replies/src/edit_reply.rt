//! Answers to edits.

use cfj_model::{FaultKind, LimitKind, Name, Site};

/// What is answered to an edit. Its place is the number of its item in the history, from 0.
#[derive(Debug, Drop)]
pub enum EditReply {
    /// The project was changed.
    Accepted {
        /// The place.
        place: u32,
        /// The number of edits that were accepted, this one among them.
        version: u32,
    },
    /// The project is as it was.
    Refused {
        /// The place.
        place: u32,
        /// The first reason, in their order.
        reason: Reason,
    },
}

/// Why an edit was refused, in the order in which the reasons are tested.
#[derive(Debug, Drop)]
pub enum Reason {
    /// There is no such version yet.
    NoVersion {
        /// The version now.
        now: u32,
    },
    /// What the edit names isn't in the project.
    NoSuch(Site),
    /// A later edit than the one that it was made for changed what it changes.
    Changed {
        /// The last version whose edit did so.
        at: u32,
    },
    /// Its text isn't of its kind.
    BadText {
        /// The place of the text's first fault.
        at: usize,
        /// The fault.
        kind: FaultKind,
    },
    /// The node can't have marks.
    NotOptional(Site),
    /// A mark is none of the project's features.
    NoFeature(Name),
    /// A class of this name is there.
    Exists(Name),
    /// The node has a mark that the new model lacks.
    InUse(Site),
    /// A limit would be passed.
    Limit(LimitKind),
}
