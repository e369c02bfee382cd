//! Data files, read whole.
use ldif_load::ldif_records::{BadLine, Position, Record, next_record};
use std::alloc::Global;

// The records of a file.
pub fn read_all(alloc: Global, text: &[u8]) -> Result<Vec<Record>, BadLine> {
    let mut records = Vec::new(alloc);
    let mut at = Position { offset: 0, line: 1 };
    'places: while let Some((record, after)) = next_record(alloc, text, at)? {
        records.push(record)?;
        at = after;
    }
    Ok(records)
}
