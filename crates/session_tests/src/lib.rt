//! Tests of the hub of sessions and of its loop: what the program never asks a hub, queues that nobody takes from, links that
//! fail or take nothing, and memory that is refused. What sessions answer is tested by the rows of `tests/` at the top.
#![tactic(auto)]

#[cfg(test)]
mod hubs;
#[cfg(test)]
mod loops;
#[cfg(test)]
mod messages;
#[cfg(test)]
mod slow;
#[cfg(test)]
mod stores;
#[cfg(test)]
mod updates;
