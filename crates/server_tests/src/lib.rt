//! Tests of the whole program over files, sinks and links in memory: calls of the outside that fail, and what is served
//! over a link. What it puts of files is tested by the rows of `tests/` at the top, over the built program.
#![tactic(auto)]

#[cfg(test)]
mod causes;
#[cfg(test)]
mod runs;
#[cfg(test)]
mod serves;
#[cfg(test)]
mod sets;
#[cfg(test)]
mod stores;
