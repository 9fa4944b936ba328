//! `graphql_print [OPTIONS] [FILE]` prints a document in AST JSON as GraphQL. `--help` tells the options.
#![tactic(auto)]

use graphql_ast::document::SourceFile;
use graphql_printing::{Outcome, Request, read_words, report_words, run_print};
use std::fs::{self, File};
use std::io::{BufWriter, ErrorKind, Read, Write};
use std::process::ExitCode;
use std::{env, io};

/// The status of a run on wrong words.
const WRONG_WORDS: u8 = 2;

/// Reports an error of a file, and answers how the run ends.
fn report(rt: &HostRuntime, path: &str, error: io::Error) -> Outcome {
    let _ = writeln!(rt.stderr(), "graphql_print: {path}: {error}");
    match error.kind() {
        ErrorKind::OutOfMemory => Outcome::Memory,
        _ => Outcome::NotRead,
    }
}

/// Runs the program on what a reader has.
fn run<R: Read + Drop>(
    rt: &HostRuntime,
    request: &Request<'_>,
    name: &str,
    input: R,
    source: Option<&SourceFile>,
) -> Outcome {
    let (alloc, options, err) = (rt.alloc(), &request.options, rt.stderr());
    match BufWriter::new(alloc, rt.stdout()) {
        Ok(out) => run_print(alloc, options, name, input, source, out, err).0,
        Err(error) => report(rt, name, error),
    }
}

/// Runs the program on the file that is asked for.
fn run_on_file(rt: &HostRuntime, request: &Request<'_>, source: Option<&SourceFile>) -> Outcome {
    let Some(path) = request.file else {
        return run(rt, request, "standard input", rt.stdin(), source);
    };
    match File::open(rt, path) {
        Ok(file) => run(rt, request, path, file, source),
        Err(error) => report(rt, path, error),
    }
}

/// The text that locations speak of.
fn read_source(rt: &HostRuntime, path: &str) -> io::Result<SourceFile> {
    Ok(SourceFile {
        path: String::from_str(rt.alloc(), path)?,
        text: fs::read_to_string(rt, path)?,
    })
}

/// Runs the program as it is asked to.
fn run_request(rt: &HostRuntime, request: &Request<'_>) -> Outcome {
    let Some(path) = request.source else {
        return run_on_file(rt, request, None);
    };
    match read_source(rt, path) {
        Ok(source) => run_on_file(rt, request, Some(&source)),
        Err(error) => report(rt, path, error),
    }
}

/// The words of the command line.
fn words(rt: &HostRuntime) -> io::Result<Vec<String>> {
    let words = env::args(rt)?;
    Ok(words.collect(rt.alloc())?)
}

/// The status of a run without words.
fn without_words(rt: &HostRuntime, error: io::Error) -> u8 {
    match report(rt, "arguments", error) {
        Outcome::Memory => Outcome::Memory.status(),
        _ => WRONG_WORDS,
    }
}

fn main(rt: HostRuntime) -> ExitCode {
    let words = match words(&rt) {
        Ok(words) => words,
        Err(error) => return ExitCode::from(without_words(&rt, error)),
    };
    let status = match read_words(rt.alloc(), &words) {
        Ok(request) => run_request(&rt, &request).status(),
        Err(error) => report_words(&error, &mut rt.stdout(), &mut rt.stderr()),
    };
    ExitCode::from(status)
}
