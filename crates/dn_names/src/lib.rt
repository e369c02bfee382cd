//! Names of entries (X.501 clause 9, RFC 4514), read, printed, compared, cut and joined, and the values of
//! attributes with their keys.
#![tactic(auto)]

mod classes;
mod error;
mod is_key;
mod joining;
mod keys;
pub mod laws;
mod limits;
mod make;
mod modes;
mod name;
mod octets;
mod order;
mod parsing;
mod parts;
mod path;
mod printing;
mod resolve;
mod scan;
mod sharing;
mod short;
mod value;

pub use error::BadName;
pub use is_key::is_key_of;
pub use joining::{join, local};
pub use limits::{MOST_OCTETS, MOST_RDNS};
pub use make::make_value;
pub use match_rules;
pub use name::{Dn, Pair};
pub use order::{compare_front, compare_names, is_prefix, same};
pub use parsing::{parse, parse_rdn};
pub use plain_values;
pub use printing::print;
pub use value::Value;
