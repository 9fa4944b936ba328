//! Sinks that fault after each number of bytes, and a kind of another crate.
use crate::outside::Outside;
use ast_json_text::{send_ast_json, to_ast_json_text, to_ast_json_text_by_value};
use graphql_ast::ast::Document;
use graphql_checks::sinks::Narrow;
use std::alloc::{AllocError, Global};
use std::process::Abort;
use worked_trees::definitions::definition;

/// A document whose text is longer than what waits before a sink is asked.
fn document(alloc: Global) -> Result<Document, AllocError> {
    let mut document = Document::new(alloc);
    for variant in 0..4 {
        document.push_node(definition(alloc, variant)?)?;
    }
    Ok(document)
}

/// A sink with room for so many bytes, one a call, has taken as many of the text; if that isn't all, it faulted once.
fn check_room(rt: &impl Abort, alloc: Global, document: &Document, whole: &[u8], room: usize) {
    let mut sink = Narrow::with_room(alloc, room);
    let is_sent = send_ast_json(document, &mut sink).is_ok();
    assert_eq!(rt; is_sent, room == whole.len());
    assert_eq!(rt; sink.faults, if is_sent { 0 } else { 1 });
    assert_eq!(rt; sink.bytes.len(), room);
    assert!(rt; whole.starts_with(sink.bytes.as_slice()), "{room}");
}

/// Before a fault a sink has taken a beginning. The text of a kind of another crate is that of its value.
pub(crate) fn check_sinks(rt: &impl Abort, alloc: Global) {
    let document = document(alloc).expect(rt, "memory");
    let whole = to_ast_json_text(alloc, &document).expect(rt, "memory");
    assert!(rt; whole.len() > 2048);
    for room in 0..=whole.len() {
        check_room(rt, alloc, &document, whole.as_bytes(), room);
    }
    let outside = Outside { document };
    let text = to_ast_json_text_by_value(alloc, &outside).expect(rt, "memory");
    assert!(rt; text.as_str() == whole.as_str(), "{text}");
}
