//! How a run ends.
ghost use Rattle.std.specs.Prelude.{◌≡◌};
ghost use Rattle.graphql_printing.specs.Outcomes.{status_of};

/// How a run ended.
///
/// ```
/// let name = "standard input";
/// match run_print(alloc, &options, name, rt.stdin(), None, rt.stdout(), rt.stderr()).0 {
///     Outcome::Done => println!(rt; "printed")?,
///     outcome => println!(rt; "status {}", outcome.status())?, // status 3 where the input is no JSON
/// }
/// ```
#[derive(Clone, Copy, Debug, PartialEq, Eq)]
pub enum Outcome {
    /// All that was asked for was done.
    Done,
    /// The document isn't well formed: no text is read as it.
    IllFormed,
    /// The starting level and the nesting of the document don't fit into 64 bits together.
    LevelOverflow,
    /// The reader failed.
    NotRead,
    /// The bytes are no JSON.
    NotJson,
    /// The JSON is of no document.
    NoTree,
    /// An allocation failed.
    Memory,
    /// The writer failed, after a beginning of the text or before it.
    WriterFailed,
}

impl Outcome {
    /// The exit status of a run that ends so: 0 where all was done, 1 for a document that isn't well formed, 2 for a level
    /// that is too great, 3 where no document was read, and 4 where an allocation or the writer failed.
    pub fn status(self) -> u8
        ensures { result ≡ status_of self }
    {
        match self {
            Outcome::Done => 0,
            Outcome::IllFormed => 1,
            Outcome::LevelOverflow => 2,
            Outcome::NotRead | Outcome::NotJson | Outcome::NoTree => 3,
            Outcome::Memory | Outcome::WriterFailed => 4,
        }
    }
}
