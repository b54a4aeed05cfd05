//! `bench [--undo N] [--dir DIR] [SCRIPT]`: runs a script of commands on named arrays.
#![tactic(auto)]

ghost use Rattle.std.specs.Prelude.{◌≤◌};

mod status;

use bench_engine::{RunFault, Summary, run};
use host_process::{Options, OptionsFault, Retrying, given_options, has_stack};
use npy_files::DirStore;
use status::{FAULT, NO_MEMORY, NO_SCRIPT, WRITE_FAULT, outcome};
use std::fs::File;
use std::io::Read;
use std::process::ExitCode;
use std::rt::Files;
use std::{fs, io};

/// Writes a text to standard error, and returns the status.
fn stop(rt: &impl Eprint, status: u8, text: &str) -> ExitCode {
    let _ = rt.eprintln(text);
    ExitCode::from(status)
}

/// Ends the program with the status of a run.
fn finish(rt: &impl Eprint, run: &Result<Summary, RunFault>) -> ExitCode {
    let (status, text) = outcome(run);
    if text.is_empty() {
        return ExitCode::from(status);
    }
    stop(rt, status, text)
}

/// Reports invalid arguments, or prints the help that they ask for.
fn refuse<R: Print + Eprint>(rt: &R, fault: &OptionsFault) -> ExitCode {
    let OptionsFault::Words(error) = fault else {
        return stop(rt, FAULT, NO_MEMORY);
    };
    if error.print(rt).is_err() && !error.use_stderr() {
        return stop(rt, FAULT, WRITE_FAULT);
    }
    ExitCode::from(error.exit_code() as u8)
}

/// Runs a script over the files of the folder that the options name.
fn run_over<R: Files<File = File> + Print + Eprint + AllocGlobal, S: Read + Drop>(
    rt: &R,
    script: S,
    options: &Options,
) -> ExitCode
    requires { options.now.depth ≤ 64 }
{
    let dir = options.dir.as_str();
    let Ok(mut store) = DirStore::try_new(rt, rt.alloc(), dir) else {
        return stop(rt, FAULT, NO_MEMORY);
    };
    let mut source = Retrying::new(script);
    let mut replies = Retrying::new(io::writer(rt));
    let told = run(
        rt.alloc(),
        &mut source,
        &mut replies,
        &mut store,
        options.depth,
    );
    finish(rt, &told)
}

/// Runs the script that the options name.
fn run_script<R: Files<File = File> + Input + Print + Eprint + AllocGlobal>(
    rt: &R,
    options: &Options,
) -> ExitCode
    requires { options.now.depth ≤ 64 }
{
    if !has_stack(rt.alloc(), options.depth) {
        return stop(rt, FAULT, NO_MEMORY);
    }
    match &options.script {
        Some(path) => match fs::open(rt, path.as_str()) {
            Ok(file) => run_over(rt, file, options),
            Err(_) => stop(rt, FAULT, NO_SCRIPT),
        },
        None => run_over(rt, rt.reader(), options),
    }
}

fn main(rt: HostRuntime) -> ExitCode {
    match given_options(&rt) {
        Ok(options) => run_script(&rt, &options),
        Err(fault) => refuse(&rt, &fault),
    }
}
