//! Putting all octets of a piece.

ghost use Rattle.wire_io.specs.Putting.{PutsAll, PutCause};

use crate::{PutFault, Sink};

/// Puts all the octets, in order. After a refusal, `Failed` where the sink's count of faults rose or
/// want of memory, a front of them was put.
pub fn write_all<K: Sink>(sink: &mut K, bytes: &[u8]) -> Result<(), PutFault>
    ensures tells { PutsAll (K.put sink.old) bytes.now result (K.put sink.new) }
    ensures cause { PutCause (K.faults sink.old) (K.faults sink.new) result }
{
    let mut done = 0;
    while done < bytes.len() {
        match sink.write(bytes.split_at(done).1) {
            Ok(count) => done += count,
            Err(fault) => return Err(fault),
        }
    }
    Ok(())
}
