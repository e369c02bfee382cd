//! Tests of texts under the generic string encoding rules, with expected values from their grammar in RFC 3672 and
//! RFC 3641.
#![tactic(auto)]

#[cfg(test)]
mod items;
#[cfg(test)]
mod limits;
#[cfg(test)]
mod parts;
#[cfg(test)]
mod subtrees;
