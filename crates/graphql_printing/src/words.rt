//! What the words of a command line ask for.
ghost use Rattle.std.specs.Prelude.{◌≡◌, Bool, codes, IfOk, map, option_map, string_bytes};
ghost use Rattle.clap.specs.Values.{kind_of};
ghost use Rattle.clap.specs.Words.{app_of, first_of, found_of, matches_of, rows_of};
ghost use Rattle.graphql_ast_calls.specs.Answers.{reading};
ghost use Rattle.graphql_printing.specs.Outcomes.{status_of_words};
ghost use Rattle.graphql_printing.specs.Words.{AreLinesOf, AreOptionsOf, IsNumberOf, file_of, is_given, printing_app, task_of};

use crate::command::command;
use crate::options::{Lines, Options, Task};
use clap::error::ErrorKind;
use clap::{ArgMatches, Command};
use graphql_ast_json::Unknown;
use std::alloc::Global;
use std::io::{self, Write};

/// What is asked for, and of which file.
///
/// ```
/// // `words` are graphql_print, --tabs and a.json
/// match read_words(alloc, &words) {
///     Ok(request) => println!(rt; "{:?} {:?}", request.options.lines, request.file)?, // Tabs Some("a.json")
///     Err(error) => return Ok(report_words(&error, &mut rt.stdout(), &mut rt.stderr())),
/// }
/// ```
#[derive(Clone, Copy, Debug, PartialEq, Eq)]
pub struct Request<'a> {
    pub options: Options,
    /// The file that is read; `None` for the standard input.
    pub file: Option<&'a str>,
    /// The file of the GraphQL text that the locations speak of.
    pub source: Option<&'a str>,
}

/// Why words ask for nothing: the error of `clap`, which is a mistake, or a request for help or for the version.
pub use clap::Error as WordsError;

/// The first value of an argument, if it has one.
#[tactic(auto, using(crate::proofs::Arguments::value_in_rows))]
fn value_of<'a>(matches: &ArgMatches<'a>, name: &str) -> Option<&'a str>
    ensures { option_map (λ value. value.now) result
        ≡ first_of name.now (rows_of (found_of matches.now)) }
{
    matches.get_str(name)
}

/// Whether a flag was given.
fn is_given(matches: &ArgMatches<'_>, name: &str) -> bool
    ensures { result ≡ is_given name.now (rows_of (found_of matches.now)) }
{
    match value_of(matches, name) {
        Some(value) => value == "true",
        None => false,
    }
}

/// The spaces of a level.
fn width_of(matches: &ArgMatches<'_>) -> u8
    ensures { IsNumberOf 8 (first_of (codes "indent") (rows_of (found_of matches.now))) 2 result }
{
    match value_of(matches, "indent") {
        Some(text) => match text.parse::<u8>() {
            Ok(width) => width,
            Err(_) => 2,
        },
        None => 2,
    }
}

/// The level that a print begins at.
fn level_of(matches: &ArgMatches<'_>) -> u16
    ensures { IsNumberOf 16 (first_of (codes "level") (rows_of (found_of matches.now))) 0 result }
{
    match value_of(matches, "level") {
        Some(text) => match text.parse::<u16>() {
            Ok(level) => level,
            Err(_) => 0,
        },
        None => 0,
    }
}

/// The lines that are asked for.
fn lines_of(matches: &ArgMatches<'_>) -> Lines
    ensures { AreLinesOf (rows_of (found_of matches.now)) result }
{
    if is_given(matches, "one-line") {
        Lines::OneLine
    } else if is_given(matches, "tabs") {
        Lines::Tabs
    } else {
        Lines::Spaces(width_of(matches))
    }
}

/// What is to be done.
fn task_of(matches: &ArgMatches<'_>) -> Task
    ensures { result ≡ task_of (rows_of (found_of matches.now)) }
{
    if is_given(matches, "check") {
        Task::Check
    } else if !is_given(matches, "json") {
        Task::Print
    } else if value_of(matches, "indent").is_some() {
        Task::WritePrettyJson
    } else {
        Task::WriteJson
    }
}

/// What becomes of what is unknown.
fn unknown_of(matches: &ArgMatches<'_>) -> Unknown
    ensures { result ≡ reading
        (is_given (codes "pass-over-unknown") (rows_of (found_of matches.now))) }
{
    if is_given(matches, "pass-over-unknown") {
        Unknown::PassOver
    } else {
        Unknown::Refuse
    }
}

/// The options that `clap` found.
fn options_of(matches: &ArgMatches<'_>) -> Options
    ensures { AreOptionsOf (rows_of (found_of matches.now)) result }
{
    Options {
        task: task_of(matches),
        lines: lines_of(matches),
        level: level_of(matches),
        unknown: unknown_of(matches),
        allow_ill_formed: is_given(matches, "allow-ill-formed"),
    }
}

/// The file that was given, if it isn't the standard input.
fn file_of<'a>(matches: &ArgMatches<'a>) -> Option<&'a str>
    ensures { option_map (λ file. file.now) result ≡ file_of (rows_of (found_of matches.now)) }
{
    match value_of(matches, "FILE") {
        Some(file) if file != "-" => Some(file),
        _ => None,
    }
}

/// What is asked for.
fn request_of<'a>(matches: &ArgMatches<'a>) -> Request<'a>
    ensures options { AreOptionsOf (rows_of (found_of matches.now)) result.options }
    ensures file { option_map (λ file. file.now) result.file
        ≡ file_of (rows_of (found_of matches.now)) }
    ensures source { option_map (λ file. file.now) result.source
        ≡ first_of (codes "source") (rows_of (found_of matches.now)) }
{
    Request {
        options: options_of(matches),
        file: file_of(matches),
        source: value_of(matches, "source"),
    }
}

/// The matches of words.
fn matches_of<'a>(
    command: &mut Command<'a>,
    words: &'a [String],
) -> Result<ArgMatches<'a>, WordsError>
    requires { app_of command.old ≡ printing_app }
    ensures { IfOk result (λ matches. rows_of (found_of matches)
        ≡ matches_of printing_app (map string_bytes words.entry.now)) }
{
    command.try_get_matches_from_mut(words)
}

/// What the words of a command line ask for, the first of which is the program's name.
///
/// The options and the files are those of the matches that `clap` says it makes of the words, by the arguments of the
/// command.
pub fn read_words<'a>(alloc: Global, words: &'a [String]) -> Result<Request<'a>, WordsError>
    ensures options { IfOk result (λ request. AreOptionsOf
        (matches_of printing_app (map string_bytes words.entry.now)) request.options) }
    ensures file { IfOk result (λ request. option_map (λ file. file.now) request.file
        ≡ file_of (matches_of printing_app (map string_bytes words.entry.now))) }
    ensures source { IfOk result (λ request. option_map (λ file. file.now) request.source
        ≡ first_of (codes "source") (matches_of printing_app (map string_bytes words.entry.now))) }
{
    let mut command = command(alloc)?;
    let matches = matches_of(&mut command, words)?;
    Ok(request_of(&matches))
}

/// Writes the text of an error where it belongs.
fn write_error<W: Write, E: Write>(error: &WordsError, out: &mut W, err: &mut E) -> io::Result<()> {
    if error.use_stderr() {
        write!(err, "{error}")
    } else {
        write!(out, "{error}")
    }
}

/// The exit status of words that ask for nothing.
fn status_of_words(kind: ErrorKind, is_written: bool) -> u8
    ensures { result ≡ status_of_words kind is_written }
{
    match kind {
        ErrorKind::DisplayHelp | ErrorKind::DisplayVersion if is_written => 0,
        ErrorKind::DisplayHelp | ErrorKind::DisplayVersion | ErrorKind::OutOfMemory => 4,
        _ => 2,
    }
}

/// Reports words that ask for nothing: help and the version on `out`, and a mistake on `err`.
///
/// It returns the exit status of a run that ends so: 0 for help and the version, if they could be written, 2 for a
/// mistake, and 4 where an allocation or the writer of help or the version failed.
pub fn report_words<W: Write, E: Write>(error: &WordsError, out: &mut W, err: &mut E) -> u8
    ensures { (is_written : Bool) × (result ≡ status_of_words (kind_of error.now) is_written) }
{
    let is_written = write_error(error, out, err).is_ok();
    status_of_words(error.kind(), is_written)
}
