//! Values taken out of those whose order is kept.

ghost use Rattle.std.specs.Prelude.{◌≡◌, ◌<◌, not, length, map, filter, ◌==◌};
ghost use Rattle.std.specs.List.{remove};
ghost use Rattle.std.specs.Str.{bytes_eq};
ghost use Rattle.value_lists.specs.Orders.{IsOrder, place_after};

use crate::places::place_of;
use dn_names::Value;

// Takes the place out.
fn drop_place(places: &mut Vec<u32>, place: u32)
    ensures exact { places.new.items ≡ filter (λ other. not (place == other)) places.old.items }
{
    places.retain(
        |other: &u32| -> bool
            ensures { result ≡ not (place == other.now) }
        { place != *other },
    );
}

// Where the value at the other place stands, when that at the place is taken out.
fn place_after(place: u32, other: u32) -> u32
    ensures exact { result ≡ place_after place other }
{
    if place < other { other - 1 } else { other }
}

// Counts the places behind the place down by one.
fn count_down(places: &mut Vec<u32>, place: u32)
    ensures exact { places.new.items ≡ map (place_after place) places.old.items }
{
    for index in 0..places.len() {
        places[index] = place_after(place, places[index]);
    }
}

// Takes the value at the place out, and its place.
fn drop_at(values: &mut Vec<Value>, places: &mut Vec<u32>, place: u32)
    requires order { IsOrder values.old.items places.old.items }
    requires within { place < length values.old.items }
    ensures order { IsOrder values.new.items places.new.items }
    ensures exact { values.new.items ≡ remove values.old.items place }
{
    values.remove(place as usize);
    drop_place(places, place);
    count_down(places, place);
}

/// Takes out the values that have the key, and their places.
pub(crate) fn drop_in_order(values: &mut Vec<Value>, places: &mut Vec<u32>, key: &[u8])
    requires { IsOrder values.old.items places.old.items }
    ensures order { IsOrder values.new.items places.new.items }
    ensures exact { values.new.items ≡ filter (λ value. not (bytes_eq key.now value.key)) values.old.items }
{
    while let Some(place) = place_of(values, places, key) {
        drop_at(values, places, place);
    }
}
