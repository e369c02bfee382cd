//! Tests of access control: administrative areas and the subentries in force for an entry.
#![tactic(auto)]

#[cfg(test)]
mod areas;
