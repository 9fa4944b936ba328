//! The command, with its arguments.
ghost use Rattle.std.specs.Prelude.{◌≡◌, codes, false, IfOk};
ghost use Rattle.clap.specs.Words.{app_of, new_rule, rule_of};
ghost use Rattle.graphql_printing.specs.Words.{bare_app, conflicting, file_rules, flag_rule, indent_rules, line_rules, number_rule, option_rule, printing_app, reading_rules, task_rules, with_rules};

use clap::{Arg, ArgAction, Command};
use std::alloc::{AllocError, Global};

const ABOUT: &str = "Prints a document in AST JSON, the form of graphql-js, as GraphQL.";

const STATUSES: &str = "Exit status:
  0  all was done
  1  the document is not well formed
  2  wrong arguments
  3  no file, no JSON, or JSON of no document
  4  memory was refused, or the output failed";

/// A flag.
fn flag<'a>(alloc: Global, name: &'a str, help: &'a str) -> Arg<'a>
    ensures rule { rule_of result ≡ flag_rule name.entry.now }
    ensures local { result.global ≡ false }
{
    Arg::new(alloc, name)
        .long(name)
        .action(ArgAction::SetTrue)
        .help(help)
}

/// An option with a value.
fn option<'a>(alloc: Global, name: &'a str, value: &'a str, help: &'a str) -> Arg<'a>
    ensures rule { rule_of result ≡ option_rule name.entry.now }
    ensures local { result.global ≡ false }
{
    Arg::new(alloc, name)
        .long(name)
        .value_name(value)
        .help(help)
}

/// The spaces of a level.
fn indent<'a>(alloc: Global) -> Arg<'a>
    ensures rule { rule_of result ≡ number_rule 16 (codes "indent") }
    ensures local { result.global ≡ false }
{
    let help = "Indents each level by N spaces, 0 to 16 [default: 2]";
    option(alloc, "indent", "N", help).value_parser(clap::value_parser!(u8).range(0..=16))
}

/// The level that a print begins at.
fn level<'a>(alloc: Global) -> Arg<'a>
    ensures rule { rule_of result ≡ number_rule 65535 (codes "level") }
    ensures local { result.global ≡ false }
{
    let help = "Begins at this level of indentation [default: 0]";
    option(alloc, "level", "N", help).value_parser(clap::value_parser!(u16))
}

/// The same argument, which may not stand with another one.
#[tactic(auto, using(crate::proofs::Arguments::conflicting_rule))]
fn without<'a>(arg: Arg<'a>, other: &'a str) -> Result<Arg<'a>, AllocError>
    ensures rule { IfOk result (λ made. rule_of made ≡ conflicting (rule_of arg.entry)) }
    ensures local { IfOk result (λ made. made.global ≡ arg.entry.global) }
{
    arg.conflicts_with(other)
}

/// Adds the options of indentation.
fn with_indents<'a>(alloc: Global, command: Command<'a>) -> Result<Command<'a>, AllocError>
    ensures { IfOk result (λ made. app_of made ≡ with_rules indent_rules (app_of command.entry)) }
{
    let tabs = flag(alloc, "tabs", "Indents each level by a tab");
    let tabs = without(tabs, "indent")?;
    command.arg(indent(alloc))?.arg(tabs)
}

/// Adds the options of one line, and of the level.
fn with_lines<'a>(alloc: Global, command: Command<'a>) -> Result<Command<'a>, AllocError>
    ensures { IfOk result (λ made. app_of made ≡ with_rules line_rules (app_of command.entry)) }
{
    let one_line = flag(alloc, "one-line", "Prints on one line");
    let one_line = without(without(one_line, "indent")?, "tabs")?;
    command.arg(one_line)?.arg(level(alloc))
}

/// Adds the options of what is done.
fn with_tasks<'a>(alloc: Global, command: Command<'a>) -> Result<Command<'a>, AllocError>
    ensures { IfOk result (λ made. app_of made ≡ with_rules task_rules (app_of command.entry)) }
{
    let check = flag(
        alloc,
        "check",
        "Prints nothing, and says what is wrong with the document",
    );
    let json = flag(
        alloc,
        "json",
        "Writes AST JSON, on one line, or indented with --indent",
    );
    let json = without(json, "check")?;
    let json = without(without(json, "tabs")?, "level")?;
    command.arg(check)?.arg(json)
}

/// Adds the options of what is taken.
fn with_reading<'a>(alloc: Global, command: Command<'a>) -> Result<Command<'a>, AllocError>
    ensures { IfOk result (λ made. app_of made ≡ with_rules reading_rules (app_of command.entry)) }
{
    let pass_over = flag(
        alloc,
        "pass-over-unknown",
        "Passes over what no node of its kind has, in place of refusing it",
    );
    let allow = flag(
        alloc,
        "allow-ill-formed",
        "Takes documents that are not well formed, which no text is read as",
    );
    command.arg(pass_over)?.arg(allow)
}

/// Adds the files.
fn with_files<'a>(alloc: Global, command: Command<'a>) -> Result<Command<'a>, AllocError>
    ensures { IfOk result (λ made. app_of made ≡ with_rules file_rules (app_of command.entry)) }
{
    let source = option(
        alloc,
        "source",
        "FILE",
        "The GraphQL text that the locations speak of, for lines and columns in messages",
    );
    let file = Arg::new(alloc, "FILE").help("The JSON; the standard input without it, or for -");
    command.arg(source)?.arg(file)
}

/// The command without its arguments.
fn bare_command<'a>(alloc: Global) -> Command<'a>
    ensures { app_of result ≡ bare_app }
{
    Command::new(alloc, "graphql_print")
        .version("0.1.0")
        .about(ABOUT)
        .after_help(STATUSES)
}

/// The command.
#[tactic(auto, unfolding(crate::specs::Words::printing_app))]
pub(crate) fn command<'a>(alloc: Global) -> Result<Command<'a>, AllocError>
    ensures { IfOk result (λ made. app_of made ≡ printing_app) }
{
    let command = with_indents(alloc, bare_command(alloc))?;
    let command = with_lines(alloc, command)?;
    let command = with_tasks(alloc, command)?;
    let command = with_reading(alloc, command)?;
    with_files(alloc, command)
}
