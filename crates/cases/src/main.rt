//! Runs the cases in the files that its words name, and prints for each file how many passed.
//!
//! A case says what is run and what must come: a run of the program over memory, or a part of one, such as a text that is read as an
//! expression. `docs/CASES.md` tells the form. For a case that differs the program prints its name, what was wanted and what came,
//! and ends with 1.
#![tactic(auto)]

mod data_file;
mod part;
mod whole;

use data_file::run_file;
use std::process::ExitCode;
use std::{env, io};

/// Runs the cases of each file; whether all passed.
fn run_files(rt: &HostRuntime) -> io::Result<bool> {
    let mut names = env::args(rt)?;
    let _program = names.next();
    let mut all_passed = true;
    for name in names {
        if !run_file(rt, name.as_str())? {
            all_passed = false;
        }
    }
    Ok(all_passed)
}

fn main(rt: HostRuntime) -> io::Result<ExitCode> {
    Ok(if run_files(&rt)? {
        ExitCode::SUCCESS
    } else {
        ExitCode::FAILURE
    })
}
