//! What a server bounds for all its connections together.

/// On which terms messages are answered.
#[derive(Clone, Copy, Debug)]
pub struct Terms {
    /// How many entries a search is answered with at most; 0: as many as it asks for.
    pub limit: u32,
    /// Whether each change that is accepted is to be stored before any reply leaves that may show it.
    pub keeps: bool,
}

/// What a server bounds for all its connections together, beside what the protocol bounds.
#[derive(Clone, Copy, Debug)]
pub struct Bounds {
    pub terms: Terms,
    /// How many octets the replies that wait for all connections hold together, before a connection whose own queue is
    /// above 1 MiB is cut.
    pub queues: u64,
}

impl Bounds {
    /// Bounds that bound nothing: searches are answered as they ask, no change is to be stored, and no queue is too long.
    pub const NONE: Bounds = Bounds {
        terms: Terms {
            limit: 0,
            keeps: false,
        },
        queues: u64::MAX,
    };
}
