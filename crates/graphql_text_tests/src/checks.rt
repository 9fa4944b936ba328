//! What the examples compare, and a sink that they print into.
ghost use Rattle.std.specs.Prelude.{◌≡◌, None};

use graphql_text::sink::{SinkFault, TextSink};
use std::fmt::{Debug, Display};
use std::process::Abort;

/// That these are equal. A call, since a comparison written out is dear where many follow: the proof of a test goes over all of them.
pub(crate) fn check_equal<T: PartialEq + Debug + Drop>(rt: &impl Abort, found: T, wanted: T) {
    assert_eq!(rt; found, wanted);
}

/// The same of one of several cases, which is told where they differ.
pub(crate) fn check_case<T: PartialEq + Debug + Drop>(
    rt: &impl Abort,
    case: impl Display + Drop,
    found: T,
    wanted: T,
) {
    assert_eq!(rt; found, wanted, "{case}");
}

pub(crate) fn check_text(rt: &impl Abort, found: &str, wanted: &str) {
    check_equal(rt, found, wanted);
}

/// A text that a call made: memory is ample.
pub(crate) fn check_made<E: Debug>(rt: &impl Abort, made: Result<String, E>, wanted: &str) {
    let text = made.expect(rt, "memory");
    check_text(rt, text.as_str(), wanted);
}

/// A sink with room for so many bytes, which takes all of a call or none, and then faults. It counts its calls, those with no
/// byte, and those after a fault.
#[derive(Drop)]
pub(crate) struct Counting {
    pub(crate) room: usize,
    pub(crate) faults: u64,
    pub(crate) calls: usize,
    pub(crate) wrong_calls: usize,
}

impl Counting {
    pub(crate) fn with_room(room: usize) -> Counting
        ensures { result.faults ≡ 0 }
    {
        Counting {
            room,
            faults: 0,
            calls: 0,
            wrong_calls: 0,
        }
    }
}

impl TextSink for Counting {
    ghost taken = { λ sink. None };

    ghost fault_count = { λ sink. sink.faults };

    fn put(&mut self, bytes: &[u8]) -> Result<usize, SinkFault> {
        self.calls = self.calls.saturating_add(1);
        if bytes.is_empty() || self.faults > 0 {
            self.wrong_calls = self.wrong_calls.saturating_add(1);
        }
        if bytes.len() <= self.room {
            self.room -= bytes.len();
            return Ok(bytes.len());
        }
        self.faults += 1;
        Err(SinkFault)
    }

    fn faults(&self) -> u64 {
        self.faults
    }
}
