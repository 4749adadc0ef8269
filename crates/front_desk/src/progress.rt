//! How far the line of an endpoint has come.

/// How far a line has come: its seat may put packets, all of its packets were taken, or its entries are recorded.
#[derive(Clone, Copy, Debug, PartialEq, Eq)]
pub(crate) enum Progress {
    Open,
    Closed,
    Recorded,
}
