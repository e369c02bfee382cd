//! Values that come twice.

ghost use Rattle.std.specs.Prelude.{◌≡◌, IfOk};
ghost use Rattle.std.specs.Set.{distinct_count};
ghost use Rattle.dir_tree.specs.Entry.{is_match};
ghost use Rattle.op_add_delete.specs.reading.NewEntries.{repeats};

use dir_tree::NoMemory;
use dir_tree::dn_names::Value;
use std::alloc::Global;
use std::collections::BTreeSet;

// How many distinct keys the values have.
fn key_count(alloc: Global, values: &[Value]) -> Result<usize, NoMemory>
    ensures ok { IfOk result (λ count. count ≡ distinct_count is_match values.now) }
{
    let keys: BTreeSet<&[u8]> = values.iter().map(|value| value.key()).collect(alloc)?;
    Ok(keys.len())
}

/// Whether two of the values match. Of n values about n log n keys are compared: a request may have many. The error comes
/// where memory is wanted.
pub fn repeats(alloc: Global, values: &[Value]) -> Result<bool, NoMemory>
    ensures ok { IfOk result (λ found. found ≡ repeats is_match values.now) }
{
    if values.len() < 2 {
        return Ok(false);
    }
    let count = key_count(alloc, values)?;
    Ok(count != values.len())
}
