//! The values of one attribute, in their order. One value takes no memory beside its own; among many, whether a
//! value has a key is told at once, by the places of the values in the order of their keys.
#![tactic(auto)]

mod drops;
mod kept;
mod keys;
mod ordered;
mod places;
mod values;

pub use values::Values;
