//! `job_speed JOB COUNT SIZE SEED` does a job that users of the library wait for, so often and over inputs of such a size that
//! follow from the seed, and prints a digest of all its results: texts, what is told of faults and flaws, and where things
//! stand. It tells no times: its caller takes them.
//!
//! JOB is
//!
//! - `read`: schemas in AST JSON are read and printed, and some small ones, each with a fault, are refused;
//! - `sorted`: documents in AST JSON, with members in the order of the alphabet, are printed by a call of the C interface; some
//!   small ones are read, and some, each with a fault, are refused by another call;
//! - `write`: trees are written as AST JSON;
//! - `build`: schemas are built, printed and dropped;
//! - `operations`: operations are built, and printed on one line;
//! - `rewrite`: documents are copied, changed, compared, tested and printed, and some have a flaw;
//! - `all`: each of these;
//! - `normalize`: schemas in AST JSON are written anew by a call of the C interface;
//! - `write_text`: what `write` writes, with no value of `serde_json` between.
#![tactic(auto)]

mod digest;
mod faults;
mod jobs;
mod locations;
mod numbers;
mod operation_json;
mod schema_json;
mod texts;
mod trees;

use crate::digest::Digest;
use crate::jobs::Task;
use anyhow::{Result, bail};
use std::alloc::Global;
use std::env::Env;

/// The word at an index of the command line, in a buffer.
fn word<'b, R: Env>(env: &R, index: usize, buffer: &'b mut [u8]) -> Option<&'b str> {
    let len = env.arg(index, buffer).ok()?;
    str::from_utf8(&buffer[..len]).ok()
}

fn number<R: Env>(env: &R, index: usize) -> Option<u64> {
    let mut buffer = [0u8; 24];
    word(env, index, &mut buffer)?.parse().ok()
}

fn read_task<R: Env>(env: &R) -> Option<Task> {
    Some(Task {
        count: number(env, 2)? as usize,
        size: number(env, 3)? as usize,
        seed: number(env, 4)?,
    })
}

fn run(alloc: Global, job: &str, task: Task, digest: &mut Digest) -> Result<()> {
    match job {
        "read" => jobs::read_schemas(alloc, task, digest),
        "sorted" => jobs::print_sorted_json(alloc, task, digest),
        "write" => jobs::write_json(alloc, task, digest),
        "build" => jobs::build_schemas(alloc, task, digest),
        "operations" => jobs::print_operations(alloc, task, digest),
        "rewrite" => jobs::rewrite(alloc, task, digest),
        "normalize" => jobs::normalize_json(alloc, task, digest),
        "write_text" => jobs::write_json_text(alloc, task, digest),
        _ => bail!("no such job"),
    }
}

const ALL: [&str; 6] = ["read", "sorted", "write", "build", "operations", "rewrite"];

fn main(rt: HostRuntime) -> Result<()> {
    let alloc = rt.alloc();
    let mut buffer = [0u8; 16];
    let (Some(job), Some(task)) = (word(&rt, 1, &mut buffer), read_task(&rt)) else {
        bail!(
            "usage: job_speed read|sorted|write|build|operations|rewrite|all|normalize|write_text COUNT SIZE SEED"
        );
    };
    let mut digest = Digest::new();
    if job == "all" {
        for job in ALL {
            run(alloc, job, task, &mut digest)?;
        }
    } else {
        run(alloc, job, task, &mut digest)?;
    }
    println!(rt; "{:016x}", digest.hash)?;
    Ok(())
}
