//! How large a name and its values may be.

/// The most RDNs of a name.
pub const MOST_RDNS: usize = 64;

/// The most octets of a value, in a name or of an attribute.
pub const MOST_OCTETS: usize = 65_536;
