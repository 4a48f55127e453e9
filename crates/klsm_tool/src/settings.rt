//! How a script is run where nothing is said of a refill or a balance.
ghost use Rattle.std.specs.Prelude.{◌≡◌};
ghost use Rattle.klsm_tool.specs.Settings.{script_settings};

use klsm_words::{Pick, ScriptSettings};

/// How a script is run: with no refill and no balance, which `ScriptSettings` has too.
#[derive(Clone, Copy, Debug, PartialEq, Eq)]
pub struct Settings {
    /// How many threads the rows may name, 1 to 16.
    pub threads: usize,
    /// How many items a thread keeps for itself, at most 64.
    pub k: usize,
    /// How deletions pick a candidate.
    pub pick: Pick,
    /// The seed of thread 0's random picks. Each further thread has a seed that is larger by one.
    pub seed: u64,
}

impl Settings {
    /// The same settings as `replay_with` and `live_with` take them.
    pub fn script_settings(&self) -> ScriptSettings
        ensures { result ≡ script_settings self.now }
    {
        ScriptSettings {
            threads: self.threads,
            k: self.k,
            refill: 0,
            balance: 0,
            pick: self.pick,
            seed: self.seed,
        }
    }
}
