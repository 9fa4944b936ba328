//! A document for each operation.
use crate::samples::{check_text, document};
use graphql_ast::ast::{Document, SourceFile};
use graphql_ast::span::FileId;
use graphql_operations::separate_operations;
use std::alloc::{AllocError, Global};

const RING: &str = "fragment C on T { a ...A } query Ring { a ...A } fragment B on T { a ...C } \
    fragment A on T { a ...B }";

const ONCE: &str = "query Once { a ...Lost } fragment Lost on T { a ...Nowhere }";

/// The document, of a file.
fn of_file(alloc: Global) -> Result<Document, AllocError> {
    let file = SourceFile {
        path: String::from_str(alloc, "a.graphql")?,
        text: String::from_str(alloc, "text")?,
    };
    let mut document = document(alloc)?;
    document.sources.insert(FileId::new(3), file)?;
    Ok(document)
}

/// A document without operations has none.
#[test]
fn each_operation_has_what_it_reaches_and_no_more(rt: HostRuntime) {
    let alloc = rt.alloc();
    let document = of_file(alloc).expect(&rt, "memory");
    let documents = separate_operations(alloc, &document).expect(&rt, "memory");
    assert_eq!(rt; documents.len(), 2);
    for (one, wanted) in documents.iter().zip([RING, ONCE]) {
        check_text(&rt, alloc, one, wanted);
        assert!(rt; one.sources.get(&FileId::new(3)).is_some(), "{wanted}");
    }
    let none = separate_operations(alloc, &Document::new(alloc));
    assert!(rt; none.expect(&rt, "memory").is_empty());
}
