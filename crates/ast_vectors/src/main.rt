//! `ast-vectors N` prints the stored vector of number N.
#![tactic(auto)]

mod vectors;
mod words;

use crate::vectors::run_words;
use crate::words::words;
use std::process::ExitCode;

fn main(rt: HostRuntime) -> ExitCode {
    let alloc = rt.alloc();
    let (status, _out, _err) = run_words(alloc, words(&rt, alloc), rt.stdout(), rt.stderr());
    ExitCode::from(status)
}
