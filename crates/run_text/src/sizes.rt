ghost use Rattle.std.specs.Prelude.{◌≡◌};
ghost use Rattle.window_engine.specs.Settings.{IsSetting};
ghost use Rattle.run_text.specs.Sizes.{AreSizes};

use window_engine::Setting;

/// What is set for a run: the slots of a batch, from 1 to 64, the rounds of a window, from 1 to 16, and how many workers and path
/// workers there are, each from 1 to 16.
#[derive(Clone, Copy, Debug)]
pub struct Sizes {
    pub b: u8,
    pub g: u8,
    pub workers: u8,
    pub paths: u8,
}

impl Sizes {
    /// What an engine is set to, for a replay or for a plan.
    pub(crate) fn setting(self, replay: bool) -> Setting
        requires { AreSizes self }
        ensures within { IsSetting result }
        ensures replay { result.replay ≡ replay }
        ensures b { result.b ≡ self.b }
        ensures g { result.g ≡ self.g }
        ensures workers { result.workers ≡ self.workers }
        ensures paths { result.paths ≡ self.paths }
    {
        Setting {
            replay,
            workers: u16::from(self.workers),
            paths: u16::from(self.paths),
            b: self.b,
            g: self.g,
        }
    }
}
