//! Why changes aren't applied.

use change_records::ldap_msg::ResultCode;
use thiserror::Error;

/// Why recorded changes aren't applied.
#[derive(Clone, Copy, Debug, Error)]
pub enum ReplayFault {
    /// The change whose record begins at this line can't be made of what those before it left: the result code (RFC 4511
    /// 4.1.9) refuses it.
    #[error("change at line {line} refused: {}", .code.number())]
    Refused { line: u64, code: ResultCode },
    /// There was no memory.
    #[error("no memory")]
    NoMemory,
}
