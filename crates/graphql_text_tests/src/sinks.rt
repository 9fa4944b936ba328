//! Sinks that take all, and the error of a writer that is kept.
use crate::checks::check_equal;
use graphql_text::sink::{SinkFault, StreamSink, TextSink, VecSink};
use std::io::{self, ErrorKind, Write};
use std::process::Abort;

const TEXT: &[u8] = b"[1, 2]";

/// It takes the text, and then nothing.
fn check_puts<S: TextSink>(rt: &impl Abort, sink: &mut S) {
    assert_eq!(rt; sink.faults(), 0);
    assert_eq!(rt; sink.put(TEXT), Ok(6));
    assert_eq!(rt; sink.faults(), 0);
    assert_eq!(rt; sink.put(&[]), Ok(0));
    assert_eq!(rt; sink.faults(), 0);
}

/// What a writer answers to a write.
#[derive(Clone, Copy, Debug)]
enum Answer {
    Takes,
    TakesNothing,
    Fails(ErrorKind),
}

/// Answers to writes one after another, with the error that the sink tells after each: the last that the writer answered, whatever
/// is taken behind it.
const ANSWERS: [(Answer, Option<ErrorKind>); 9] = [
    (Answer::Takes, None),
    (Answer::TakesNothing, None),
    (
        Answer::Fails(ErrorKind::NotFound),
        Some(ErrorKind::NotFound),
    ),
    (Answer::Takes, Some(ErrorKind::NotFound)),
    (
        Answer::Fails(ErrorKind::Interrupted),
        Some(ErrorKind::Interrupted),
    ),
    (Answer::TakesNothing, Some(ErrorKind::Interrupted)),
    (
        Answer::Fails(ErrorKind::BrokenPipe),
        Some(ErrorKind::BrokenPipe),
    ),
    (
        Answer::Fails(ErrorKind::Interrupted),
        Some(ErrorKind::Interrupted),
    ),
    (Answer::Takes, Some(ErrorKind::Interrupted)),
];

/// Answers one after another.
#[derive(Drop)]
struct Answering {
    writes: usize,
}

impl Write for Answering {
    fn write(&mut self, bytes: &[u8]) -> io::Result<usize> {
        let answer = ANSWERS.get(self.writes);
        self.writes = self.writes.saturating_add(1);
        match answer {
            Some((Answer::Fails(kind), _)) => Err(io::Error::from(*kind)),
            Some((Answer::TakesNothing, _)) => Ok(0),
            _ => Ok(bytes.len()),
        }
    }

    fn flush(&mut self) -> io::Result<()> {
        Ok(())
    }
}

/// Vectors, and writers that take all; and the last error of one that doesn't, where each write is tried once.
#[test]
fn sinks_take_all_or_keep_the_last_error(rt: HostRuntime) {
    let mut sink = VecSink::new(rt.alloc());
    check_puts(&rt, &mut sink);
    check_equal(&rt, sink.bytes(), TEXT);
    check_equal(&rt, sink.into_bytes().len(), 6);
    let mut sink = StreamSink::new(Vec::new(rt.alloc()));
    check_puts(&rt, &mut sink);
    check_equal(&rt, sink.into_inner().as_slice(), TEXT);
    let mut sink = StreamSink::new(Answering { writes: 0 });
    assert!(rt; sink.last_error().is_none());
    let mut faults = 0u64;
    for (answer, wanted) in ANSWERS {
        assert!(rt; sink.faults() < 9);
        let taken = match answer {
            Answer::Takes => Ok(TEXT.len()),
            Answer::TakesNothing | Answer::Fails(_) => Err(SinkFault),
        };
        assert_eq!(rt; sink.put(TEXT), taken, "{answer:?}");
        faults = faults.saturating_add(u64::from(taken.is_err()));
        assert_eq!(rt; sink.faults(), faults, "{answer:?}");
        let last = sink.last_error().map(|error| error.kind());
        assert_eq!(rt; last, wanted, "{answer:?}");
    }
    check_equal(&rt, &sink.into_inner().writes, &9);
}
