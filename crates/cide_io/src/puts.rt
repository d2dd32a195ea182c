//! Whole pieces for a sink.
ghost use Rattle.cide_io.specs.Changes.{Gains};

use crate::faults::Failed;
use crate::sinks::Sink;

/// Puts all of a piece, call after call. After a failure a proper prefix of it stands in the sink. An empty piece takes no
/// call.
pub fn put_all<K: Sink>(sink: &mut K, piece: &[u8]) -> Result<(), Failed>
    ensures { Gains K.Sink sink.old sink.new piece.now result }
{
    let mut done = 0;
    'pieces: while done < piece.len() {
        match sink.put(&piece[done..]) {
            Ok(count) => done += count,
            Err(fault) => return Err(fault),
        }
    }
    Ok(())
}
