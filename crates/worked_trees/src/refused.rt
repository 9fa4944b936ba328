//! Calls that were refused memory, counted: none where memory is ample, and one at most where one allocation is refused.
use std::alloc::AllocError;

/// How many calls were refused memory.
#[derive(Drop)]
pub struct Refused {
    pub calls: usize,
}

impl Refused {
    pub fn none() -> Refused {
        Refused { calls: 0 }
    }

    pub fn add(&mut self) {
        self.calls = self.calls.saturating_add(1);
    }

    /// What a call made, if it wasn't refused memory.
    pub fn made<T>(&mut self, answer: Result<T, AllocError>) -> Option<T> {
        if answer.is_err() {
            self.add();
        }
        answer.ok()
    }
}
