use takeover_history::Refusal;

/// What an event did.
#[derive(Clone, Copy, Debug, PartialEq, Eq)]
pub enum Outcome {
    /// It changed the pair, or what is told between them, and shows nothing.
    Nothing,
    /// The keeper sent a grant, as the message of this number.
    Granted {
        message: u32,
        node: u16,
        generation: u32,
        first: u32,
    },
    /// A batch was published.
    Published {
        batch: u32,
    },
    /// An endpoint sent in so many slots, from the send of this number on.
    Sent {
        from: u32,
        count: u32,
    },
    /// It was refused, and changed nothing.
    Refused {
        name: Refusal,
    },
}
