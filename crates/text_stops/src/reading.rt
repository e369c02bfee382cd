//! A text, read by the table as far as it goes.

ghost use Rattle.std.specs.Prelude.{◌≡◌, IfOk};
ghost use Rattle.text_stops.specs.Standing.{stop_in, stop_from, standing_of};

use crate::spots::{Spot, cut, spots_of};
use crate::standing::{Standing, Turn, is_whole, take};
use std::alloc::{AllocError, Global};

// The place of the first spot that may not stand where it does, or that of the end, where something is wanted there.
fn stop_from(text: &[u8], standing: Standing, spots: &[Spot]) -> Result<Option<usize>, AllocError>
    ensures ok { IfOk result (λ stop. stop ≡ stop_from text.now (standing_of standing) spots.now) }
{
    let mut standing = standing;
    for spot in spots {
        match take(spot.kind, cut(text, *spot), standing)? {
            Some(next) => standing = next,
            None => return Ok(Some(spot.place)),
        }
    }
    if is_whole(&standing) {
        Ok(None)
    } else {
        Ok(Some(text.len()))
    }
}

/// The same in the text of a value of the form.
#[tactic(auto, unfolding(crate::specs::Standing::stop_in))]
pub(crate) fn stop_in(
    alloc: Global,
    form: &'static str,
    text: &[u8],
) -> Result<Option<usize>, AllocError>
    ensures ok { IfOk result (λ stop. stop ≡ stop_in form.now text.now) }
{
    let spots = spots_of(alloc, text)?;
    let standing = Standing {
        turn: Turn::Value(form),
        levels: Vec::new(alloc),
    };
    stop_from(text, standing, &spots)
}
