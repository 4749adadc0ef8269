/// What became of a flow's demand, in slots.
#[derive(Clone, Copy, Debug, PartialEq, Eq)]
pub struct Counts {
    pub demanded: u32,
    pub allocated: u32,
    pub acknowledged: u32,
    pub lost: u32,
    pub pending: u32,
    pub sent: u32,
    pub missed: u32,
}
