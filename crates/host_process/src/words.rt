//! The options that the arguments give.
ghost use Rattle.std.specs.Prelude.{◌≡◌};
ghost use Rattle.host_process.specs.declared.words.OptionsFault.TheVariants.{Memory};

use clap::Error;
use std::alloc::AllocError;

/// The options of a run.
#[derive(Drop)]
pub struct Options {
    /// How many earlier states are kept for `undo`.
    pub depth: usize,
    /// The folder for `load` and `save`.
    pub dir: String,
    /// The file of the script; without one, standard input is read.
    pub script: Option<String>,
}

/// Why the arguments give no options.
#[derive(Drop)]
pub enum OptionsFault {
    /// The arguments are invalid, or ask for help.
    Words(Error),
    /// There was not enough memory to read them.
    Memory,
}

impl From<AllocError> for OptionsFault {
    ghost from_gives = { λ _ fault. fault ≡ Memory };

    fn from(_error: AllocError) -> OptionsFault {
        OptionsFault::Memory
    }
}
