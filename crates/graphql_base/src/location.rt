//! An optional span, in as many bytes as a span.
ghost use Rattle.std.specs.Prelude.{◌≡◌};

use crate::span::{FileId, SourceSpan};
use std::marker::Model;

/// Where something stands in a source text, if that is known. Contracts see an optional span.
///
/// There is no span where the start is above the end: so that it is missing takes no byte of its own.
#[derive(Drop)]
pub struct Location {
    file_id: FileId,
    start: u32,
    end: u32,
}

impl Model for Location {
    ghost use Rattle.std.specs.Prelude.{Option};
    ghost use Rattle.graphql_base.specs.declared.span.SourceSpan.{SourceSpan};
    ghost use Rattle.graphql_base.specs.Stretches.{stretch};

    ghost Value = { Option SourceSpan };

    ghost view = { λ location. stretch location.file_id location.start location.end };
}

impl Location {
    #[tactic(auto, using(crate::proofs::SpanStretches::between))]
    pub fn new(span: Option<SourceSpan>) -> Location
        ensures { result ≡ span }
    {
        match span {
            Some(span) => Location {
                file_id: span.file_id(),
                start: span.start(),
                end: span.end(),
            },
            None => Location {
                file_id: FileId::BUILT_IN,
                start: 1,
                end: 0,
            },
        }
    }

    pub fn get(&self) -> Option<SourceSpan>
        ensures { result ≡ self.now }
    {
        SourceSpan::new(self.file_id, self.start, self.end)
    }
}
