//! The laws of access control items: a text is read as its one value, or refused where it is too deep; their sets keep
//! their members, in order; and a printed item is read again as itself.
#![tactic(auto)]

pub mod laws;
