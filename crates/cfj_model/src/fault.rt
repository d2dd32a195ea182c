//! The faults of a text.

ghost use Rattle.std.specs.Prelude.{Some};
ghost use Rattle.cfj_model.specs.FaultTexts.{kind_text, limit_text};

use cfj_words::Name;
use std::alloc::{AllocError, AllocFailed};
use std::fmt;

/// The limits that a text can pass. At one token that of names is tested before the names are looked up, the others behind that, in
/// this order.
#[derive(Clone, Copy, Debug, PartialEq, Eq)]
pub enum LimitKind {
    /// 128 features.
    Features,
    /// 4,096 formula nodes in all constraints together.
    Formula,
    /// 64 constructs open at once in an expression or a formula.
    Nest,
    /// 255 bytes in a name.
    Name,
    /// 1,024 classes.
    Classes,
    /// 64 fields in a class.
    Fields,
    /// 256 methods in a class.
    Methods,
    /// 16 parameters of a method.
    Params,
    /// 1,024 parameters, sent names or assignments of a constructor.
    Ctor,
    /// 1,024 nodes in an expression.
    Nodes,
    /// 1,000,000 declarations, sent names, assignments and nodes in a project.
    Size,
}

/// What is wrong with a text at the place of its first fault.
#[derive(Debug, Drop)]
pub enum FaultKind {
    /// A character that begins no token.
    BadChar,
    /// A comment that isn't closed.
    OpenComment,
    /// A token after which no text of the grammar can go on.
    Unexpected,
    /// A reserved word where another word could stand.
    Reserved,
    /// The name of a feature that isn't declared.
    NoFeature(Name),
    /// A name that stands before among its like.
    Twice(Name),
    /// A limit is passed.
    Limit(LimitKind),
    /// A byte that belongs to no character.
    NotUtf8,
}

/// Why a text was not read.
#[derive(Debug, Drop)]
pub enum ParseFault {
    /// The first fault of the text, at a byte's place.
    At { at: usize, kind: FaultKind },
    /// There was no memory.
    NoMemory,
}

impl fmt::Display for LimitKind {
    ghost output = { λ limit. Some (limit_text limit) };

    fn fmt<W: fmt::Write>(&self, f: &mut fmt::Formatter<W>) -> fmt::Result {
        match self {
            LimitKind::Features => write!(f, "Features"),
            LimitKind::Formula => write!(f, "Formula"),
            LimitKind::Nest => write!(f, "Nest"),
            LimitKind::Name => write!(f, "Name"),
            LimitKind::Classes => write!(f, "Classes"),
            LimitKind::Fields => write!(f, "Fields"),
            LimitKind::Methods => write!(f, "Methods"),
            LimitKind::Params => write!(f, "Params"),
            LimitKind::Ctor => write!(f, "Ctor"),
            LimitKind::Nodes => write!(f, "Nodes"),
            LimitKind::Size => write!(f, "Size"),
        }
    }
}

impl fmt::Display for FaultKind {
    ghost output = { λ kind. Some (kind_text kind) };

    fn fmt<W: fmt::Write>(&self, f: &mut fmt::Formatter<W>) -> fmt::Result {
        match self {
            FaultKind::BadChar => write!(f, "BadChar"),
            FaultKind::OpenComment => write!(f, "OpenComment"),
            FaultKind::Unexpected => write!(f, "Unexpected"),
            FaultKind::Reserved => write!(f, "Reserved"),
            FaultKind::NoFeature(name) => write!(f, "NoFeature {}", name.text()),
            FaultKind::Twice(name) => write!(f, "Twice {}", name.text()),
            FaultKind::Limit(limit) => write!(f, "Limit {limit}"),
            FaultKind::NotUtf8 => write!(f, "NotUtf8"),
        }
    }
}

impl From<AllocError> for ParseFault {
    ghost use Rattle.cfj_model.specs.declared.fault.ParseFault.TheVariants.{NoMemory};
    ghost use Rattle.std.specs.Prelude.{◌≡◌};

    ghost from_gives = { λ _ fault. fault ≡ NoMemory };

    fn from(_error: AllocError) -> ParseFault {
        ParseFault::NoMemory
    }
}

impl<T: Drop> From<AllocFailed<T>> for ParseFault {
    ghost use Rattle.cfj_model.specs.declared.fault.ParseFault.TheVariants.{NoMemory};
    ghost use Rattle.std.specs.Prelude.{◌≡◌};

    ghost from_gives = { λ _ fault. fault ≡ NoMemory };

    fn from(_error: AllocFailed<T>) -> ParseFault {
        ParseFault::NoMemory
    }
}
