//! The exit status, and the text for standard error.
ghost use Rattle.std.specs.Prelude.{◌≡◌};
ghost use Rattle.bench_main.specs.inside.Outcomes.{outcome_of};

use bench_engine::{RunFault, Summary};

/// The text if the script cannot be opened.
pub const NO_SCRIPT: &str = "bench: no script";

/// The text if there is not enough memory to start.
pub const NO_MEMORY: &str = "bench: out of memory";

/// The text if output cannot be written.
pub const WRITE_FAULT: &str = "bench: write fault";

/// The status if a script cannot be run to its end.
pub const FAULT: u8 = 3;

/// The exit status of a run and the text for standard error: 0 if every command was accepted, 1 if
/// one was refused, and 3 with a text if the run stopped before its end.
pub fn outcome(run: &Result<Summary, RunFault>) -> (u8, &'static str)
    ensures { (result.0, result.1.now) ≡ outcome_of run.now }
{
    match run {
        Ok(summary) if summary.refused == 0 => (0, ""),
        Ok(_) => (1, ""),
        Err(RunFault::Read) => (FAULT, "bench: read fault"),
        Err(RunFault::Write) => (FAULT, WRITE_FAULT),
        Err(RunFault::Memory) => (FAULT, NO_MEMORY),
    }
}
