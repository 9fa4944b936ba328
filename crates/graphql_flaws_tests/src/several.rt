//! Documents with several flaws, with locations and without, and documents that have none.
use crate::checks::{check, check_equal};
use crate::notation::json_of;
use graphql_ast::ast::{Document, Field, FragmentSpread, Selection, Value};
use graphql_ast::span::FileId;
use graphql_ast::{Node, name};
use graphql_ast_json::from_ast_json_str;
use graphql_flaws::{FindFlaws, FoundFlaw};
use std::alloc::{AllocError, Global};
use std::process::Abort;

/// Definitions, and what is told of a document of them.
const DOCUMENTS: [(&str, &[&str]); 5] = [
    (
        "(OperationDefinition;'operation':'query',{(Field;'name':<f>),(InlineFragment;{(Field;'name':<f>,@),(InlineFragment;{})}),\
         (FragmentSpread;'name':<on>)}),(ScalarTypeDefinition;'name':<A>),(ScalarTypeExtension;'name':<A>),\
         (EnumTypeDefinition;'name':<E>,'values':[(EnumValueDefinition;'name':<true>),(EnumValueDefinition;'name':<true>)])",
        &[
            "at `definitions[0].selectionSet.selections[1].selectionSet.selections[0].directives[0].arguments[0].value.values[0].value`: \
             a reserved enum value: `null`",
            "at `definitions[0].selectionSet.selections[1].selectionSet.selections[1].selectionSet`: an empty selection set",
            "at `definitions[0].selectionSet.selections[2].name.value`: a fragment named `on`: `on`",
            "at `definitions[2]`: an extension that adds nothing: `A`",
            "at `definitions[3].values[0].name.value`: a reserved enum value: `true`",
            "at `definitions[3].values[1].name.value`: a reserved enum value: `true`",
        ],
    ),
    (
        "(DirectiveDefinition;'name':<d>,'arguments':[(InputValueDefinition;'name':<a>,%),\
         (InputValueDefinition;'name':<b>,%,'defaultValue':#)],'locations':[]),(SchemaDefinition;'operationTypes':[])",
        &[
            "at `definitions[0].arguments[1].defaultValue.values[0].value`: a reserved enum value: `null`",
            "at `definitions[0].arguments[1].defaultValue.values[1].fields[0].value`: a variable where only constants may stand: `x`",
            "at `definitions[0]`: a directive definition without a location: `d`",
            "at `definitions[1]`: a schema definition without a root operation",
        ],
    ),
    (
        "(FragmentDefinition;^,'name':(Name;'value':'on',&),'typeCondition':(NamedType;'name':<T>),{(Field;&,'name':<f>,{(FragmentSpread;'name':<on>)})}),\
         (SchemaExtension;^)",
        &[
            "at `definitions[0].name.value`: a fragment named `on`: `on`",
            "at `definitions[0].selectionSet.selections[0].selectionSet.selections[0].name.value`: a fragment named `on`: `on`",
            "at `definitions[1]`: an extension that adds nothing",
        ],
    ),
    (
        "(OperationDefinition;'operation':'query','name':<on>,{(Field;'alias':<on>,'name':<true>,{})})",
        &[],
    ),
    (
        "(EnumTypeDefinition;'name':<true>,'values':[(EnumValueDefinition;'name':<True>)]),(UnionTypeExtension;'name':<A>,'types':[(NamedType;'name':<T>)])",
        &[],
    ),
];

/// A document in which some nodes have a location, and the starts of the locations of its flaws: that of the name, or else around it.
const LOCATED: &str = "(Document;'definitions':[\
    (FragmentDefinition;^,'name':(Name;'value':'on',&),'typeCondition':(NamedType;'name':<T>),\
    {(Field;&,'name':<f>,{(FragmentSpread;'name':<on>)}),(FragmentSpread;'name':<on>)}),\
    (SchemaExtension;&),(SchemaExtension;'directives':[])])";

const STARTS: [Option<u32>; 5] = [Some(9), Some(9), Some(0), Some(9), None];

fn check_document(rt: &impl Abort, alloc: Global, definitions: &str, wanted: &[&str]) {
    let row = format!(in alloc; "(Document;'definitions':[{definitions}])").expect(rt, "memory");
    check::<Document>(rt, alloc, row.as_str(), wanted);
}

fn check_starts(rt: &impl Abort, flaws: &[FoundFlaw<'_>]) {
    check_equal(rt, flaws.len(), STARTS.len());
    for (flaw, wanted) in flaws.iter().zip(STARTS) {
        let start = flaw.found.location().map(|span| span.start());
        check_equal(rt, start, wanted);
    }
}

fn check_located(rt: &impl Abort, alloc: Global) {
    let json = json_of(alloc, LOCATED).expect(rt, "memory");
    let document = from_ast_json_str::<Document>(alloc, json.as_str(), FileId::new(1));
    let document = document.expect(rt, "a document");
    let flaws = document.flaws(alloc).expect(rt, "memory");
    check_starts(rt, &flaws);
}

/// And the flaws have the innermost location.
#[test]
fn documents_have_their_flaws(rt: HostRuntime) {
    for (definitions, wanted) in DOCUMENTS {
        check_document(&rt, rt.alloc(), definitions, wanted);
    }
    check_located(&rt, rt.alloc());
}

const LEVELS: usize = 1000;

/// So many fields in one another, the innermost with a spread of `on`.
fn fields(alloc: Global, levels: usize) -> Result<Selection, AllocError> {
    let mut selection = Selection::fragment_spread(alloc, FragmentSpread::new(alloc, name!(on)))?;
    for _ in 0..levels {
        let mut field = Field::new(alloc, name!(a));
        field.selection_set.push(selection)?;
        selection = Selection::field(alloc, field)?;
    }
    Ok(selection)
}

/// So many lists in one another, around `null` as an enum value.
fn lists(alloc: Global, levels: usize) -> Result<Value, AllocError> {
    let mut value = Value::Enum(name!(null));
    for _ in 0..levels {
        let node = Node::new(alloc, value)?;
        value = Value::List(vec![in alloc; node]?);
    }
    Ok(value)
}

/// That there is one flaw, with so many steps in its path.
fn check_one(rt: &impl Abort, flaws: &[FoundFlaw<'_>], steps: usize) {
    check_equal(rt, flaws.len(), 1);
    for flaw in flaws {
        check_equal(rt, flaw.path.steps.len(), steps);
    }
}

fn check_fields(rt: &impl Abort, alloc: Global) {
    let fields = fields(alloc, LEVELS).expect(rt, "memory");
    let flaws = fields.flaws(alloc).expect(rt, "memory");
    check_one(rt, &flaws, 3 * LEVELS + 2);
}

fn check_lists(rt: &impl Abort, alloc: Global) {
    let lists = lists(alloc, LEVELS).expect(rt, "memory");
    let flaws = lists.flaws(alloc).expect(rt, "memory");
    check_one(rt, &flaws, 2 * LEVELS + 1);
}

#[test]
fn deep_trees_have_their_flaws(rt: HostRuntime) {
    check_fields(&rt, rt.alloc());
    check_lists(&rt, rt.alloc());
}
