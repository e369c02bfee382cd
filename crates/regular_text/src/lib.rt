//! Regular grammars over octets, the finite machines that read them, and where octets leave a grammar.
//!
//! The crate has definitions (`specs/`) and laws of them: each function here computes nothing, and what
//! it ensures is a law. A reader of a grammar states the grammar as a value, is a finite machine, and
//! shows that it is the machine of that grammar (`IsMachineOf`) by a table of its steps.
#![tactic(auto)]

pub mod laws;
