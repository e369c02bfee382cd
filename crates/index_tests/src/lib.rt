//! Tests of what a directory keeps: after each write of every kind it is what the entries say; and many decisions and many writes are made in a moment.
#![tactic(auto)]

#[cfg(test)]
mod directories;
#[cfg(test)]
mod many;
#[cfg(test)]
mod writes;
