//! Why a line is no request.

use crate::field::Field;
use cfj_model::Text;

/// The first cause, in this order, for which a line is no request.
#[derive(Debug, Drop)]
pub enum BadLine {
    /// It is no JSON.
    NotJson,
    /// It is no object.
    NotObject,
    /// The object has no string `op`.
    NoOp,
    /// There is no such op.
    UnknownOp,
    /// This field of the op isn't there.
    MissingField(Field),
    /// What stands in this field isn't right for it.
    WrongField(Field),
    /// The op has no field with this key.
    ExtraField(Text),
}
