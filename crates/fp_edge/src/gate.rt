/// Where workers report. A test can hold one back here until another has come as far.
pub trait Gate {
    /// Called before a worker takes up a piece of a stage.
    fn enter(&self, worker: u16, stage: u32, piece: u32);

    /// Called before a path worker takes up a slot.
    fn paint(&self, worker: u16, slot: u32);
}

/// Lets every worker pass at once.
#[derive(Clone, Copy, Debug, PartialEq, Eq, Default)]
pub struct OpenGate;

impl Gate for OpenGate {
    fn enter(&self, _worker: u16, _stage: u32, _piece: u32) {}

    fn paint(&self, _worker: u16, _slot: u32) {}
}
