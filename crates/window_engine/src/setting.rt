/// How a trace is played: by `plan` or by `replay`, with so many workers and path workers (1 to 16 each), `b` slots a batch
/// (1 to 64) and `g` rounds a window (1 to 16).
#[derive(Clone, Copy, Debug)]
pub struct Setting {
    pub replay: bool,
    pub workers: u16,
    pub paths: u16,
    pub b: u8,
    pub g: u8,
}
