//! Tests of binds. The digests are those of FIPS 180-4's examples and of Python's hashlib, in the base64 of
//! RFC 4648.
#![tactic(auto)]

#[cfg(test)]
mod answers;
#[cfg(test)]
mod passwords;
