/// What comes to two arbiters, to their keeper and to the endpoints. Endpoints and nodes are numbered from 0, messages from 0 in the
/// order of sending.
#[derive(Clone, Copy, Debug, PartialEq, Eq)]
pub enum Event {
    /// More slots are asked for at an endpoint.
    Ask { src: u16, dst: u16, slots: u32 },
    /// A node sends a request for a lease.
    Request { node: u16 },
    /// The keeper reads a message, and sends a grant.
    Grant { m: u32 },
    /// A node reads a message, and takes the lease that it grants.
    Take { node: u16, m: u32 },
    /// An endpoint tells a node its totals.
    Tell { src: u16, node: u16 },
    /// A node publishes the next batch of its lease.
    Publish { node: u16 },
    /// An endpoint hears a batch.
    Hear { src: u16, batch: u32 },
    /// A node forgets all but the number of its boots.
    Crash { node: u16 },
}

/// Why an event is refused. A refused event changes nothing.
#[derive(Clone, Copy, Debug, PartialEq, Eq)]
pub enum Refusal {
    /// There is no such message for its reader.
    NoMessage,
    /// The grant is for another boot of the node.
    OldBoot,
    /// The lease begins no higher than the one that the node took last ends.
    OldLease,
    /// The node has no lease, or all of it is published.
    NoLease,
    /// The endpoint took a later generation.
    Stale,
    /// No node has published the batch.
    Unpublished,
    /// The endpoint heard the batch before.
    Repeat,
}
