//! Readers and writers in memory, which fail where a test wants it, and runs over them. None asks for memory.
ghost use Rattle.std.specs.Prelude.{◌≤◌, IfSome, length};

use graphql_ast::document::SourceFile;
use graphql_printing::{read_words, report_words, run_print};
use std::alloc::{AllocError, Global};
use std::io::{self, ErrorKind, Read, Write};

/// A reader of a text, some bytes a call, that fails once it has given a number of them.
#[derive(Drop)]
pub struct Source {
    text: &'static str,
    at: usize,
    /// The most bytes that it gives in a call.
    step: usize,
    fails_at: Option<usize>,
}

impl Source {
    pub fn new(text: &'static str) -> Source {
        Source {
            text,
            at: 0,
            step: 64,
            fails_at: None,
        }
    }

    /// The same, which gives one byte a call.
    pub fn slow(text: &'static str) -> Source {
        Source {
            step: 1,
            ..Source::new(text)
        }
    }

    /// The same, which fails once it has given so many bytes.
    pub fn failing_at(text: &'static str, place: usize) -> Source {
        Source {
            fails_at: Some(place),
            ..Source::slow(text)
        }
    }

    /// Gives some of the bytes, as many as there are and have room.
    fn give(&mut self, room: &mut [u8]) -> Option<usize>
        ensures { IfSome result (λ count. count ≤ length room.new) }
    {
        let rest = self.text.as_bytes().get(self.at..)?;
        let count = rest.len().min(self.step).min(room.len());
        let given = rest.get(..count)?;
        room.get_mut(..count)?.copy_from_slice(given);
        self.at = self.at.checked_add(count)?;
        Some(count)
    }
}

impl Read for Source {
    fn read(&mut self, room: &mut [u8]) -> io::Result<usize> {
        if self.fails_at == Some(self.at) {
            return Err(io::Error::from(ErrorKind::ConnectionReset));
        }
        Ok(self.give(room).unwrap_or(0))
    }
}

/// A writer in memory that takes one byte a call, and fails once it has taken a number of them.
#[derive(Drop)]
pub struct Page {
    bytes: [u8; 2048],
    len: usize,
    fails_at: Option<usize>,
    fails_to_flush: bool,
}

impl Page {
    pub fn new() -> Page {
        Page {
            bytes: [0; 2048],
            len: 0,
            fails_at: None,
            fails_to_flush: false,
        }
    }

    /// One that fails once it has taken so many bytes.
    pub fn failing_at(place: usize) -> Page {
        Page {
            fails_at: Some(place),
            ..Page::new()
        }
    }

    /// One that takes all, and fails when it is to hand it on.
    pub fn failing_to_flush() -> Page {
        Page {
            fails_to_flush: true,
            ..Page::new()
        }
    }

    /// What it has taken, if that is text.
    fn text(&self) -> Option<&str> {
        str::from_utf8(self.bytes.get(..self.len)?).ok()
    }

    /// Whether it has taken this text, and nothing else.
    pub fn holds(&self, text: &str) -> bool {
        self.text() == Some(text)
    }

    /// Whether what it has taken begins with this text.
    pub fn begins_with(&self, text: &str) -> bool {
        self.text().unwrap_or("").starts_with(text)
    }

    /// Whether what it has taken ends with this text.
    pub fn ends_with(&self, text: &str) -> bool {
        self.text().unwrap_or("").ends_with(text)
    }

    /// Takes the first of the bytes, if there is one and room for it.
    fn take(&mut self, bytes: &[u8]) -> Option<usize>
        ensures { IfSome result (λ count. count ≤ length bytes.now) }
    {
        *self.bytes.get_mut(self.len)? = *bytes.first()?;
        self.len = self.len.checked_add(1)?;
        Some(1)
    }
}

impl Write for Page {
    fn write(&mut self, bytes: &[u8]) -> io::Result<usize> {
        if self.fails_at == Some(self.len) {
            return Err(io::Error::from(ErrorKind::BrokenPipe));
        }
        Ok(self.take(bytes).unwrap_or(0))
    }

    fn flush(&mut self) -> io::Result<()> {
        if self.fails_to_flush {
            return Err(io::Error::from(ErrorKind::BrokenPipe));
        }
        Ok(())
    }
}

/// Runs the program on words, which follow its name, as its `main` does, but that the reader stands for any file.
pub fn run_on(
    alloc: Global,
    words: &'static [&'static str],
    input: Source,
    source: Option<&SourceFile>,
    mut out: Page,
    mut err: Page,
) -> Result<(u8, Page, Page), AllocError> {
    let mut texts = vec![in alloc; String::from_str(alloc, "graphql_print")?]?;
    for word in words {
        texts.push(String::from_str(alloc, word)?)?;
    }
    match read_words(alloc, &texts) {
        Ok(request) => {
            let name = request.file.unwrap_or("standard input");
            let ended = run_print(alloc, &request.options, name, input, source, out, err);
            Ok((ended.0.status(), ended.1, ended.2))
        }
        Err(error) => {
            let status = report_words(&error, &mut out, &mut err);
            Ok((status, out, err))
        }
    }
}
