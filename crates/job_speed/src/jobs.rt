//! The jobs, each over inputs of its own.

use crate::digest::Digest;
use crate::faults;
use crate::locations::add_locations;
use crate::numbers::Numbers;
use crate::operation_json::OperationJson;
use crate::schema_json::SchemaJson;
use crate::texts::Texts;
use crate::trees::Builder;
use anyhow::{Result, bail};
use ast_json_text::to_ast_json_text;
use graphql_ast::ast::{
    Definition, Document, Field, ObjectTypeDefinition, OperationDefinition, Selection, SourceFile,
};
use graphql_ast::span::{FileId, SourceSpan};
use graphql_ast::{Node, name};
use graphql_ast_calls::{Status, check_json, print_json};
use graphql_ast_json::{AstJson, from_ast_json_str, from_well_formed_ast_json_str};
use std::alloc::Global;

/// What is done, how often, over inputs of which size, and of which seed they are.
#[derive(Clone, Copy)]
pub struct Task {
    pub count: usize,
    pub size: usize,
    pub seed: u64,
}

impl Task {
    /// The seed of the input of this index.
    fn seed_of(self, index: usize) -> u64 {
        self.seed.wrapping_mul(1_000_003).wrapping_add(index as u64)
    }

    /// The seed of a small input with this fault, one of those that come with the input of this index.
    fn seed_of_fault(self, index: usize, fault: usize) -> u64 {
        let number = index.wrapping_mul(faults::COUNT).wrapping_add(fault);
        self.seed_of(self.count).wrapping_add(number as u64)
    }
}

/// Schemas of so many definitions in the AST JSON of graphql-js are read, and printed.
pub fn read_schemas(alloc: Global, task: Task, digest: &mut Digest) -> Result<()> {
    let texts = Texts::escaped(alloc, task.seed)?;
    for index in 0..task.count {
        let json = SchemaJson::document(alloc, &texts, task.seed_of(index), task.size)?;
        let schema: Document = from_well_formed_ast_json_str(alloc, &json, FileId::new(1))?;
        digest.add(&schema.serialize().to_text(alloc)?);
        add_locations(&schema, digest);
        add_refused_schemas(alloc, &texts, task, index, digest)?;
    }
    Ok(())
}

/// What is told of small schemas, each of which has another fault.
fn add_refused_schemas(
    alloc: Global,
    texts: &Texts,
    task: Task,
    index: usize,
    digest: &mut Digest,
) -> Result<()> {
    for fault in 0..faults::COUNT {
        let seed = task.seed_of_fault(index, fault);
        let json = SchemaJson::document(alloc, texts, seed, (task.size / 256).wrapping_add(1))?;
        let json = faults::in_schema(alloc, &json, fault, &mut Numbers::new(seed))?;
        match from_well_formed_ast_json_str::<Document>(alloc, &json, FileId::new(1)) {
            Ok(_) => digest.add_number(0),
            Err(error) => digest.add(&format!(in alloc; "{error}")?),
        }
    }
    Ok(())
}

/// Documents of so many operations and fragments in AST JSON, with members in the order of the alphabet and some that are
/// not known, are printed by a call of the C interface.
pub fn print_sorted_json(alloc: Global, task: Task, digest: &mut Digest) -> Result<()> {
    let mut out = vec![in alloc; 0u8; task.size.saturating_mul(100_000).min(10_000_000)]?;
    let texts = Texts::escaped(alloc, task.seed)?;
    for index in 0..task.count {
        let seed = task.seed_of(index);
        let json = OperationJson::new(alloc, &texts, seed, true).document(task.size)?;
        let mut needed = 0;
        let status = print_json(
            alloc,
            json.as_bytes(),
            true,
            b"  ",
            0,
            true,
            &mut out,
            &mut needed,
        );
        match (status, out.get(..needed)) {
            (Status::Done, Some(text)) => digest.add(str::from_utf8(text)?),
            _ => bail!("a document was not printed"),
        }
        if index % 32 == 0 {
            add_small_documents(alloc, &texts, task, index, &mut out, digest)?;
        }
    }
    Ok(())
}

/// What the nodes of small documents have, their locations too, and what is told of others, each of which has another fault.
fn add_small_documents(
    alloc: Global,
    texts: &Texts,
    task: Task,
    index: usize,
    out: &mut [u8],
    digest: &mut Digest,
) -> Result<()> {
    let size = (task.size / 16).max(1);
    for fault in 0..faults::COUNT {
        let seed = task.seed_of_fault(index, fault);
        let json = OperationJson::new(alloc, texts, !seed, false).document(size)?;
        let document: Document = from_ast_json_str(alloc, &json, FileId::new(1))?;
        digest.add(&document.to_ast_json(alloc)?.to_string(alloc)?);
        let json = OperationJson::new(alloc, texts, seed, true).document(size)?;
        let json = faults::in_operations(alloc, &json, fault, &mut Numbers::new(seed))?;
        let mut needed = 0;
        let status = check_json(alloc, json.as_bytes(), true, out, &mut needed);
        digest.add_number(status.code() as u64);
        match out.get(..needed) {
            Some(message) => digest.add(str::from_utf8(message)?),
            None => bail!("a message has no room"),
        }
    }
    Ok(())
}

/// Schemas of so many definitions in the AST JSON of graphql-js are written anew by a call of the C interface.
pub fn normalize_json(alloc: Global, task: Task, digest: &mut Digest) -> Result<()> {
    let mut out = vec![in alloc; 0u8; task.size.saturating_mul(20_000).min(100_000_000)]?;
    let texts = Texts::escaped(alloc, task.seed)?;
    for index in 0..task.count {
        let json = SchemaJson::document(alloc, &texts, task.seed_of(index), task.size)?;
        let mut needed = 0;
        let json = json.as_bytes();
        let status = graphql_ast_calls::write_json(alloc, json, true, &mut out, &mut needed);
        match (status, out.get(..needed)) {
            (Status::Done, Some(text)) => digest.add(str::from_utf8(text)?),
            _ => bail!("a document was not written"),
        }
    }
    Ok(())
}

/// A schema of so many definitions is built, and its AST JSON is made, and the text of that.
pub fn write_json(alloc: Global, task: Task, digest: &mut Digest) -> Result<()> {
    let texts = Texts::plain(alloc, task.seed)?;
    for index in 0..task.count {
        let mut builder = Builder::new(alloc, &texts, task.seed_of(index));
        let schema = builder.schema(task.size)?;
        digest.add(&schema.to_ast_json(alloc)?.to_string(alloc)?);
        for _ in 0..task.size {
            let operation = builder.operation()?;
            digest.add(&operation.to_ast_json(alloc)?.to_string(alloc)?);
        }
    }
    Ok(())
}

/// The same results, with no value between a tree and its text.
pub fn write_json_text(alloc: Global, task: Task, digest: &mut Digest) -> Result<()> {
    let texts = Texts::plain(alloc, task.seed)?;
    for index in 0..task.count {
        let mut builder = Builder::new(alloc, &texts, task.seed_of(index));
        let schema = builder.schema(task.size)?;
        digest.add(&to_ast_json_text(alloc, &schema)?);
        for _ in 0..task.size {
            let operation = builder.operation()?;
            digest.add(&to_ast_json_text(alloc, &operation)?);
        }
    }
    Ok(())
}

/// A schema of so many definitions is built, printed and dropped.
pub fn build_schemas(alloc: Global, task: Task, digest: &mut Digest) -> Result<()> {
    let texts = Texts::plain(alloc, task.seed)?;
    for index in 0..task.count {
        let mut builder = Builder::new(alloc, &texts, task.seed_of(index));
        let schema = builder.schema(task.size)?;
        digest.add(&schema.serialize().to_text(alloc)?);
    }
    Ok(())
}

/// So many operations are built, and each is printed on one line into a text of its own.
pub fn print_operations(alloc: Global, task: Task, digest: &mut Digest) -> Result<()> {
    let texts = Texts::plain(alloc, task.seed)?;
    for index in 0..task.count {
        let mut builder = Builder::new(alloc, &texts, task.seed_of(index));
        for _ in 0..task.size {
            let operation = builder.operation()?;
            digest.add(&operation.serialize().no_indent().to_text(alloc)?);
        }
    }
    Ok(())
}

/// Asks for `__typename` in the field of this index of each selection set down to this one.
fn select_type_name(alloc: Global, selections: &mut Vec<Selection>, index: usize) -> Result<()> {
    for (place, selection) in selections.iter_mut().enumerate() {
        if let Selection::Field(field) = selection {
            if place % 4 == index % 4 && !field.selection_set.is_empty() {
                let type_name = Selection::field(alloc, Field::new(alloc, name!("__typename")))?;
                field.make_mut()?.selection_set.push(type_name)?;
            }
        }
    }
    Ok(())
}

/// Rewrites an operation at the field of this index.
fn rewrite_operation(
    alloc: Global,
    operation: &mut Node<OperationDefinition>,
    index: usize,
) -> Result<()> {
    for (place, selection) in operation.make_mut()?.selection_set.iter_mut().enumerate() {
        if let Selection::Field(field) = selection {
            if place % 2 == index % 2 {
                select_type_name(alloc, &mut field.make_mut()?.selection_set, index / 2)?;
            }
        }
    }
    Ok(())
}

/// Leaves out the last field of an object type.
fn rewrite_object_type(object: &mut Node<ObjectTypeDefinition>) -> Result<()> {
    let _ = object.make_mut()?.fields.pop();
    Ok(())
}

/// A copy of the document, changed in the definitions of which every so many has this index.
fn rewritten(alloc: Global, document: &Document, index: usize) -> Result<Document> {
    let mut copy = document.clone()?;
    for (place, definition) in copy.definitions.iter_mut().enumerate() {
        if place % 16 != index % 16 {
            continue;
        }
        match definition {
            Definition::OperationDefinition(operation) => {
                rewrite_operation(alloc, operation, index)?
            }
            Definition::ObjectTypeDefinition(object) => rewrite_object_type(object)?,
            _ => {}
        }
    }
    Ok(copy)
}

/// A document of operations, with some definitions of types between them.
fn mixed_document(alloc: Global, builder: &mut Builder<'_>, size: usize) -> Result<Document> {
    let mut document = builder.schema(size / 8)?;
    for _ in 0..size {
        document.push(alloc, builder.operation()?)?;
    }
    Ok(document)
}

fn span_at(offset: u32) -> Option<SourceSpan> {
    SourceSpan::new(FileId::new(1), offset, offset)
}

/// The line and the column of places all over a source text.
fn add_positions(document: &Document, length: usize, digest: &mut Digest) {
    for step in 0..30u64 {
        let offset = (length as u64).wrapping_mul(step) / 30;
        let offset = u32::try_from(offset).unwrap_or(0);
        if let Some(span) = span_at(offset) {
            if let Some(position) = document.line_column(span) {
                digest.add_number(position.line as u64);
                digest.add_number(position.column as u64);
            }
        }
    }
}

/// A document that is rewritten again and again, and one that is equal to it and shares nothing with it.
#[derive(Drop)]
struct Twins {
    document: Document,
    other: Document,
    /// The length of the source text, which is what the document is printed as first.
    length: usize,
    /// The index of an operation, one of the last eighth, which each rewriting replaces by a new one.
    place: usize,
}

impl Twins {
    fn new(
        alloc: Global,
        builder: &mut Builder<'_>,
        other: Document,
        size: usize,
    ) -> Result<Twins> {
        let mut document = mixed_document(alloc, builder, size)?;
        let text = document.serialize().to_text(alloc)?;
        let length = text.len();
        let path = String::from_str(alloc, "a.graphql")?;
        document
            .sources
            .insert(FileId::new(1), SourceFile { path, text })?;
        let behind = builder.numbers.below(size / 8).wrapping_add(1);
        Ok(Twins {
            place: document.definitions.len().saturating_sub(behind),
            document,
            other,
            length,
        })
    }

    /// Both rewritten. In two of eight rounds the new operation of the first has a flaw.
    fn rewritten(&self, alloc: Global, builder: &mut Builder<'_>, round: usize) -> Result<Twins> {
        let mut document = rewritten(alloc, &self.document, round)?;
        let mut other = rewritten(alloc, &self.other, round)?;
        let mut operation = builder.operation()?;
        put(
            &mut other,
            self.place,
            Node::new(alloc, operation.clone()?)?,
        );
        if round % 4 == 2 {
            builder.spoil(&mut operation)?;
        }
        let offset = builder.numbers.below(self.length);
        let span = span_at(u32::try_from(offset).unwrap_or(0));
        let node = match span {
            Some(span) => Node::new_parsed(alloc, operation, span)?,
            None => Node::new(alloc, operation)?,
        };
        put(&mut document, self.place, node);
        Ok(Twins {
            document,
            other,
            length: self.length,
            place: self.place,
        })
    }
}

fn put(document: &mut Document, place: usize, operation: Node<OperationDefinition>) {
    if let Some(definition) = document.definitions.get_mut(place) {
        *definition = Definition::OperationDefinition(operation);
    }
}

/// What is found of a document that was rewritten, beside what it was.
fn add_found(alloc: Global, before: &Document, after: &Twins, digest: &mut Digest) -> Result<()> {
    let copy = &after.document;
    digest.add_number((copy == before) as u64);
    digest.add_number((*copy == after.other) as u64);
    digest.add_number(copy.is_well_formed() as u64);
    match copy.find_placed_flaw() {
        Some(flaw) => digest.add(&format!(in alloc; "{flaw}")?),
        None => digest.add_number(0),
    }
    digest.add(&copy.serialize().to_text(alloc)?);
    Ok(())
}

/// Rewrites a document eight times, each time what the last time made.
fn rewrite_by_rounds(
    alloc: Global,
    builder: &mut Builder<'_>,
    twins: Twins,
    digest: &mut Digest,
) -> Result<()> {
    let mut twins = twins;
    for round in 0..8 {
        let rewritten = twins.rewritten(alloc, builder, round)?;
        add_found(alloc, &twins.document, &rewritten, digest)?;
        twins = rewritten;
    }
    add_positions(&twins.document, twins.length, digest);
    Ok(())
}

/// Documents of so many operations and some types are rewritten: copied, changed in a few places, compared with what they
/// were, tested for flaws, and printed. Where things stand in the text that was printed first is asked for too.
pub fn rewrite(alloc: Global, task: Task, digest: &mut Digest) -> Result<()> {
    let texts = Texts::plain(alloc, task.seed)?;
    for index in 0..task.count {
        let other = {
            let mut builder = Builder::new(alloc, &texts, task.seed_of(index));
            mixed_document(alloc, &mut builder, task.size)?
        };
        let mut builder = Builder::new(alloc, &texts, task.seed_of(index));
        let twins = Twins::new(alloc, &mut builder, other, task.size)?;
        rewrite_by_rounds(alloc, &mut builder, twins, digest)?;
    }
    Ok(())
}
