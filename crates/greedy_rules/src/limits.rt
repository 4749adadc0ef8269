/// How a slot's packets between racks are limited: a rack of so many hosts sends to other racks, and receives from them,
/// at most one packet for each core. Endpoints are numbered rack by rack.
#[derive(Clone, Copy, Debug, PartialEq, Eq)]
pub struct Limits {
    pub hosts: u16,
    pub cores: u16,
}
