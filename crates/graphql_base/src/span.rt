//! Source files by their numbers, and source locations.
ghost use Rattle.std.specs.Prelude.{◌≡◌, ◌≤◌, ◌↔◌, IsSome, IfSome};

/// A source file, by a number that the caller chooses.
///
/// Equality and hash are those of the number.
///
/// ```
/// FileId::new(5) == FileId::new(5)   // true
/// FileId::new(5) == FileId::BUILT_IN // false
/// ```
#[derive(Clone, Copy, PartialEq, Eq, Hash, Debug)]
pub struct FileId {
    number: u64,
}

impl FileId {
    ghost use Rattle.graphql_base.specs.Span.{file_number};

    /// The file of what GraphQL itself defines, as the type `Int` and the directive `@skip`: number 0.
    pub const BUILT_IN: FileId = FileId { number: 0 };

    /// The file of this number. The number 0 is that of `FileId::BUILT_IN`.
    ///
    /// ```
    /// FileId::new(0) == FileId::BUILT_IN // true
    /// ```
    pub fn new(number: u64) -> FileId
        ensures { file_number result ≡ number }
    {
        FileId { number }
    }
}

/// A source location: the bytes of a file from the offset `start` up to, not including, the offset `end`.
///
/// Its start is at most its end. Equality and hash are those of the file, the start and the end.
///
/// ```
/// let span = SourceSpan::new(FileId::new(5), 10, 13)?;
/// span.len() // 3
/// ```
#[derive(Clone, Copy, PartialEq, Eq, Hash, Debug)]
pub struct SourceSpan {
    file_id: FileId,
    start: u32,
    end: u32,
    pub ghost ordered: { start ≤ end },
}

impl SourceSpan {
    ghost use Rattle.graphql_base.specs.Span.{span_file, span_start, span_end, span_len};

    /// The span of the file from `start` up to, not including, `end`, both in bytes from the file's
    /// beginning. `None` exactly where `start` is greater than `end`.
    ///
    /// ```
    /// let file = FileId::new(5);
    /// SourceSpan::new(file, 10, 13) // three bytes
    /// SourceSpan::new(file, 4, 3)   // None
    /// ```
    pub fn new(file_id: FileId, start: u32, end: u32) -> Option<SourceSpan>
        ensures ordered { IsSome result ↔ (start ≤ end) }
        ensures file_id { IfSome result (λ span. span_file span ≡ file_id) }
        ensures start { IfSome result (λ span. span_start span ≡ start) }
        ensures end { IfSome result (λ span. span_end span ≡ end) }
    {
        if start <= end {
            Some(SourceSpan {
                file_id,
                start,
                end,
            })
        } else {
            None
        }
    }

    /// The file that the span is in.
    pub fn file_id(self) -> FileId
        ensures { result ≡ span_file self }
    {
        self.file_id
    }

    /// Where the span begins, in bytes from the file's beginning.
    pub fn start(self) -> u32
        ensures { result ≡ span_start self }
    {
        self.start
    }

    /// Where the span ends, in bytes from the file's beginning; the byte there is no part of it.
    pub fn end(self) -> u32
        ensures { result ≡ span_end self }
    {
        self.end
    }

    /// How many bytes the span has: its end less its start.
    pub fn len(self) -> u32
        ensures { result ≡ span_len self }
    {
        self.end - self.start
    }
}
