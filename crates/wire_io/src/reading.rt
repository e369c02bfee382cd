//! Reading a file whole.

ghost use Rattle.std.specs.Prelude.{◌≡◌, ◌<◌, ◌+◌, ◌==◌, ◌≤◌, ◌^◌, IfOk, count_by, vec_len, length};
ghost use Rattle.wire_io.specs.ReadWhole.{line_past, GivesFile, HasRead, PieceGives, PieceCause, ReadCause};

use crate::{FetchFault, ReadFault, Shelf};
use std::alloc::{AllocError, Global};

const PIECE: usize = 65_536;

#[tactic(auto, unfolding(crate::specs::ReadWhole::PieceGives, crate::specs::ReadWhole::PieceCause, crate::specs::ReadWhole::ReadCause))]
/// Reads the file of the name, of at most `limit` octets. `Absent` comes where the shelf tells that
/// it has no such file, `Failed` where its count of faults rose, and `TooLong` for a file of more
/// octets, with the line of the first octet past the limit. `NoMemory` may come in place of any answer.
pub fn read_all<H: Shelf>(
    alloc: Global,
    shelf: &mut H,
    name: &str,
    limit: u64,
) -> Result<Vec<u8>, ReadFault>
    ensures fits { IfOk result (λ content. vec_len content ≤ limit) }
    ensures ok { IfOk result (λ content. GivesFile (H.files shelf.old) name.now content.items) }
    // each refusal
    ensures cause { ReadCause (H.files shelf.old) name.now limit (H.faults shelf.old) (H.faults shelf.new) result }
    ensures kept { H.files shelf.new ≡ H.files shelf.old }
{
    let mut buffer = new_buffer(alloc)?;
    let buf = buffer.as_mut_slice();
    let mut content = Vec::new(alloc);
    while read_piece(shelf, name, buf, &mut content)? {
        if content.len() as u64 > limit {
            let line = next_line(content.as_slice().split_at(limit as usize).0);
            return Err(ReadFault::TooLong { line });
        }
    }
    Ok(content)
}

#[tactic(auto, unfolding(crate::specs::Files::FetchGives, crate::specs::Files::FetchCause, crate::specs::ReadWhole::PieceGives, crate::specs::ReadWhole::PieceCause))]
/// Reads one more piece of the file; false where it has no more.
fn read_piece<H: Shelf>(
    shelf: &mut H,
    name: &str,
    buf: &mut [u8],
    content: &mut Vec<u8>,
) -> Result<bool, ReadFault>
    requires room { 0 < length buf.old }
    requires so_far { HasRead (H.files shelf.old) name.now content.old.items }
    ensures gives { PieceGives (H.files shelf.old) name.now content.old.items result content.new.items }
    ensures cause { PieceCause (H.files shelf.old) name.now (H.faults shelf.old) (H.faults shelf.new) result }
    ensures kept { H.files shelf.new ≡ H.files shelf.old }
{
    let count = match shelf.fetch(name, content.len() as u64, buf) {
        Ok(count) => count,
        Err(FetchFault::Absent) => return Err(ReadFault::Absent),
        Err(FetchFault::Failed) => return Err(ReadFault::Failed),
        Err(FetchFault::NoMemory) => return Err(ReadFault::NoMemory),
    };
    if count == 0 {
        return Ok(false);
    }
    content.extend_from_slice(buf.split_at(count).0)?;
    Ok(true)
}

/// The line that an octet right after these is on, counted from 1.
fn next_line(octets: &[u8]) -> u64
    ensures exact { result ≡ line_past octets.now }
{
    octets.iter().filter(|octet| **octet == b'\n').count() as u64 + 1
}

/// A buffer of one piece.
fn new_buffer(alloc: Global) -> Result<Vec<u8>, AllocError>
    ensures ok { IfOk result (λ buffer. vec_len buffer ≡ 65536) }
{
    Ok(vec![in alloc; 0; PIECE]?)
}
