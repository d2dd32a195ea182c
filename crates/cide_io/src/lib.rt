//! The outside of the program: where bytes come from and where they go.
//!
//! The layers above see only three small traits. A [`Source`] gives bytes in order, a [`Sink`] takes them in order, and a
//! [`Room`] opens both by name. What an object holds may be left untold, as it is for every file and stream; each contract
//! speaks of content where it is told, and of the causes of faults always.
//!
//! The objects in memory ([`MemSource`], [`MemSink`], [`MemRoom`]) tell everything, and fail at the calls that are listed.
//! The others ([`FileSource`], [`FileSink`], [`StdOutSink`], [`StdErrSink`], [`HostRoom`]) are the edge to the system: of
//! them only the counts of faults are proved. No source and no sink is dropped; each is closed or handed back.
#![tactic(auto)]

mod calls;
mod faults;
mod host_room;
mod memory_room;
mod memory_sink;
mod memory_source;
mod names;
mod passing;
mod puts;
mod reader_source;
mod rooms;
mod sinks;
mod sources;
mod writer_sink;

pub use faults::{Failed, OpenFault, ReadAll};
pub use host_room::HostRoom;
pub use memory_room::MemRoom;
pub use memory_sink::MemSink;
pub use memory_source::MemSource;
pub use puts::put_all;
pub use reader_source::{FileSource, ReaderSource};
pub use rooms::Room;
pub use sinks::Sink;
pub use sources::{Source, read_all};
pub use writer_sink::{FileSink, StdErrSink, StdOutSink, WriterSink};
