//! What a call answers.
ghost use Rattle.std.specs.Prelude.{◌≡◌};
ghost use Rattle.graphql_ast_calls.specs.Statuses.{status_code, status_of};

/// What a call returns, by the numbers of the C interface.
///
/// ```
/// let (mut out, mut needed) = ([0; 80], 0);
/// let status = check_json(alloc, b"[", false, &mut out, &mut needed);
/// println!(rt; "{:?} {}", status, status.code())?; // NotJson 2
/// ```
#[derive(Clone, Copy, Debug, PartialEq, Eq)]
pub enum Status {
    /// What was asked for stands at the front of the buffer.
    Done = 0,
    /// It doesn't fit into the buffer.
    TooShort = 1,
    /// The bytes are no JSON.
    NotJson = 2,
    /// The JSON is of no such tree.
    NoTree = 3,
    /// The tree isn't well formed: no text is read as it.
    IllFormed = 4,
    /// The starting level and the nesting of the tree don't fit into 64 bits together.
    LevelOverflow = 5,
    /// An allocation failed.
    OutOfMemory = 6,
    /// The prefix has other bytes than spaces and tabs.
    WrongPrefix = 7,
}

impl Status {
    /// Its number.
    pub fn code(self) -> u32
        ensures number { result ≡ status_code self }
        ensures back { status_of result ≡ self }
    {
        self as u32
    }
}
