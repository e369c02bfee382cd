//! Tests of the rules of entries, and of data files: their records, the entries that are loaded of them, and what is
//! written.
#![tactic(auto)]

#[cfg(test)]
mod changes;
#[cfg(test)]
mod exports;
#[cfg(test)]
mod files;
#[cfg(test)]
mod loads;
#[cfg(test)]
mod reading;
#[cfg(test)]
mod records;
#[cfg(test)]
mod rules;
