//! What takes pieces of text.
use graphql_text::writers::Target;
use std::alloc::Global;

/// A text, and whether a piece of it was empty, or had no memory.
#[derive(Drop)]
pub(super) struct Page {
    pub(super) text: String,
    pub(super) has_fault: bool,
}

impl Target for Page {
    ghost wrote = { λ before bytes after. Unit {0} };

    ghost stopped = { λ page. ⊥ };

    ghost nothing = { λ page. tt };

    ghost idle = { λ page bytes never. tt };

    ghost more = { λ a b c x y first second. tt };

    fn text(&mut self, text: &str) {
        if text.is_empty() || self.text.push_str(text).is_err() {
            self.has_fault = true;
        }
    }

    fn is_stopped(&self) -> bool {
        false
    }
}

pub(super) fn blank_page(alloc: Global) -> Page {
    Page {
        text: String::new(alloc),
        has_fault: false,
    }
}
