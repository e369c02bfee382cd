//! What is wrong with a certificate.

/// Why a text is no certificate of a tree's. Lines count from 1.
#[derive(Debug, Drop)]
pub enum CertFault {
    /// The text isn't in the form of a certificate: the first bad line, or, where all are good and the text ends too early,
    /// the one after the last.
    Form { line: u64 },
    /// The text is in the form, and isn't the certificate of what its first four lines ask: 2 where the target is no entry
    /// of the tree, else the first line that differs.
    False { line: u64 },
    /// Memory is wanted.
    NoMemory,
}
