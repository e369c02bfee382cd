//! Tests of what names say that no program prints: why a text is none, and what of a name stands below another; and of entries
//! that take the places of others of their names.
#![tactic(auto)]

#[cfg(test)]
mod names;
#[cfg(test)]
mod trees;
