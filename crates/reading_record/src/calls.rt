//! What the calls answer of some bytes.

use crate::digest::digest;
use anyhow::Result;
use graphql_ast_calls::{Status, check_json, print_json, print_value_json, write_json};
use std::alloc::Global;

/// Fewer bytes than most prints and messages have.
const LITTLE_ROOM: usize = 60;

/// The status of a call, and the digest of what it wrote into a buffer that has room for each of the prints.
pub fn of_call(alloc: Global, json: &[u8], pass_over: bool, room: &mut [u8]) -> Result<String> {
    let mut needed = 0usize;
    let status = print_json(alloc, json, true, b"  ", 0, pass_over, room, &mut needed);
    let written = room.get(..needed).unwrap_or(b"more");
    Ok(format!(in alloc; "{} {}", status.code(), digest(written))?)
}

/// The calls that are asked, each with what is unknown refused and passed over.
#[derive(Clone, Copy)]
enum Call {
    PrintOnOneLine,
    Check,
    Write,
    PrintValue,
    LevelOverflow,
}

const CALLS: [Call; 5] = [
    Call::PrintOnOneLine,
    Call::Check,
    Call::Write,
    Call::PrintValue,
    Call::LevelOverflow,
];

impl Call {
    /// Asks a call.
    fn ask(
        self,
        alloc: Global,
        json: &[u8],
        pass_over: bool,
        out: &mut [u8],
        needed: &mut usize,
    ) -> Status {
        match self {
            Call::PrintOnOneLine => {
                print_json(alloc, json, false, b"", 0, pass_over, out, needed)
            }
            Call::Check => check_json(alloc, json, pass_over, out, needed),
            Call::Write => write_json(alloc, json, pass_over, out, needed),
            Call::PrintValue => {
                print_value_json(alloc, json, true, b"\t", 1, pass_over, out, needed)
            }
            Call::LevelOverflow => {
                let level = usize::MAX;
                print_json(alloc, json, true, b"", level, pass_over, out, needed)
            }
        }
    }

    /// Its status and how many bytes it needs, and the digest of what stands in the buffer then, of which nothing is said where it is
    /// too short.
    fn answer(
        self,
        alloc: Global,
        json: &[u8],
        pass_over: bool,
        out: &mut [u8],
    ) -> Result<(Status, String)> {
        let mut needed = 0usize;
        let status = self.ask(alloc, json, pass_over, out, &mut needed);
        let written = match status {
            Status::TooShort => b"",
            _ => out.get(..needed).unwrap_or(out),
        };
        let answer = format!(in alloc; "{} {needed} {};", status.code(), digest(written))?;
        Ok((status, answer))
    }
}

/// The statuses of all calls, with ample room and with little, and the digest of all their answers.
pub fn of_all_calls(alloc: Global, json: &[u8], room: &mut [u8]) -> Result<String> {
    let mut statuses = String::new(alloc);
    let mut answers = String::new(alloc);
    for call in CALLS {
        for pass_over in [false, true] {
            let (status, answer) = call.answer(alloc, json, pass_over, room)?;
            write!(statuses, "{}", status.code())?;
            answers.push_str(&answer)?;
        }
        let mut little = [0u8; LITTLE_ROOM];
        let (status, answer) = call.answer(alloc, json, true, &mut little)?;
        write!(statuses, "{}", status.code())?;
        answers.push_str(&answer)?;
    }
    Ok(format!(in alloc; "{statuses} {}", digest(answers.as_bytes()))?)
}
