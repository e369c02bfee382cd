//! Messages that are sent and answered in several tests (RFC 4511), as octets.

/// An anonymous bind with messageID 1 (RFC 4511 4.2), and its answer.
pub const BIND: &[u8] = b"\x30\x0c\x02\x01\x01\x60\x07\x02\x01\x03\x04\x00\x80\x00";

pub const BOUND: &[u8] = b"\x30\x0c\x02\x01\x01\x61\x07\x0a\x01\x00\x04\x00\x04\x00";
