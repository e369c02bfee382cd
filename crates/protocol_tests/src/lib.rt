//! Tests of what no command shows: links that fail and wait, an output that fails, the pieces of a stream, and the
//! system's sockets and files.
#![tactic(auto)]

#[cfg(test)]
mod links;
#[cfg(test)]
mod pieces;
#[cfg(test)]
mod sinks;
#[cfg(test)]
mod sockets;
#[cfg(test)]
mod steps;
#[cfg(test)]
mod stores;
#[cfg(test)]
mod talk;
#[cfg(test)]
mod values;
