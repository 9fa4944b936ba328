//! What is asked for.
ghost use Rattle.std.specs.Prelude.{◌≡◌, false};

use graphql_ast_json::Unknown;

/// How the lines of a print begin, or that it has one line.
///
/// ```
/// Options { lines: Lines::Spaces(4), ..Options::default() } // --indent 4
/// Options { lines: Lines::OneLine, ..Options::default() } // --one-line
/// ```
#[derive(Clone, Copy, Debug, PartialEq, Eq)]
pub enum Lines {
    /// Several lines, each with so many spaces for each level that it stands at.
    Spaces(u8),
    /// Several lines, each with a tab for each level.
    Tabs,
    /// One line.
    OneLine,
}

/// What is done with a document.
///
/// ```
/// Options { task: Task::Check, ..Options::default() } // --check
/// Options { task: Task::WriteJson, ..Options::default() } // --json
/// ```
#[derive(Clone, Copy, Debug, PartialEq, Eq)]
pub enum Task {
    /// It is printed as GraphQL.
    Print,
    /// It is read, and nothing is printed.
    Check,
    /// It is written as AST JSON, on one line.
    WriteJson,
    /// It is written as AST JSON, over several lines, with so many spaces for each level as `lines` has, or two.
    WritePrettyJson,
}

/// What is asked for.
///
/// ```
/// let options = Options { lines: Lines::Tabs, level: 1, ..Options::default() };
/// let name = "standard input";
/// let (outcome, _, _) = run_print(alloc, &options, name, rt.stdin(), None, rt.stdout(), rt.stderr());
/// ```
#[derive(Clone, Copy, Debug, PartialEq, Eq)]
pub struct Options {
    pub task: Task,
    /// The lines of a print.
    pub lines: Lines,
    /// The level that a print begins at.
    pub level: u16,
    /// What becomes of a member of the JSON that no node of its kind has.
    pub unknown: Unknown,
    /// Whether a document that isn't well formed is taken like any other.
    pub allow_ill_formed: bool,
}

impl Default for Options {
    /// A print over several lines, with two spaces for a level, from level 0, of well-formed documents alone.
    fn default() -> Options
        ensures task { result.task ≡ Task.Print }
        ensures lines { result.lines ≡ Lines.Spaces 2 }
        ensures level { result.level ≡ 0 }
        ensures unknown { result.unknown ≡ Unknown.Refuse }
        ensures well_formed { result.allow_ill_formed ≡ false }
    {
        Options {
            task: Task::Print,
            lines: Lines::Spaces(2),
            level: 0,
            unknown: Unknown::Refuse,
            allow_ill_formed: false,
        }
    }
}
