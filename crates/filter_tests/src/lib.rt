//! Tests of filters over entries, with expected values from the public standards.
#![tactic(auto)]

#[cfg(test)]
mod filters;
#[cfg(test)]
mod fixtures;
#[cfg(test)]
mod grants;
#[cfg(test)]
mod steps;
#[cfg(test)]
mod texts;
