//! Where a flaw of a tree is found: in many made trees, it is found where the search found it that knew values of
//! `serde_json` alone.
use crate::checks::{check_case, check_equal};
use crate::flawed_trees::{
    AROUND_DEFINITIONS, AROUND_SELECTIONS, DEFINITIONS, MARKS, Marks, SELECTIONS, VALUES, filled,
    marked_json,
};
use crate::ill_formed_samples::AROUND;
use crate::start_search;
use graphql_ast::ast::{DirectiveList, Document, Value};
use graphql_ast::ill_formed::SideCondition;
use graphql_ast::serialize::SyntaxTree;
use graphql_ast_json::{
    AstJson, JsonNode, NodeReader, Unknown, WellFormedError, from_well_formed_ast_json_str,
    parse_json, read_well_formed_ast_json, read_well_formed_json,
};
use graphql_base::span::{FileId, SourceSpan};
use json::Scratch;
use serde_json::Value as Json;
use std::alloc::Global;
use std::process::Abort;

/// The conditions that a tree may break.
const CONDITIONS: [SideCondition; 8] = [
    SideCondition::HasDefinition,
    SideCondition::HasSelection,
    SideCondition::IsNotOn,
    SideCondition::IsNotReserved,
    SideCondition::IsConstant,
    SideCondition::HasLocation,
    SideCondition::HasRootOperation,
    SideCondition::AddsSomething,
];

/// How many trees there were, how many readings of them told of each of the conditions, and how many of none.
#[derive(Drop)]
struct Counts {
    trees: usize,
    broken: [usize; 8],
    well_formed: usize,
}

impl Counts {
    fn new() -> Counts {
        Counts {
            trees: 0,
            broken: [0; 8],
            well_formed: 0,
        }
    }

    /// One more tree that broke this condition.
    fn add(&mut self, condition: SideCondition) {
        for (index, count) in self.broken.iter_mut().enumerate() {
            if CONDITIONS[index] == condition {
                *count = count.wrapping_add(1);
            }
        }
    }
}

/// That a flaw that breaks this condition is at the path and the location where the search as it was finds it.
fn check_position(
    rt: &impl Abort,
    node: NodeReader<'_>,
    text: &str,
    condition: SideCondition,
    (path, location): (&str, Option<SourceSpan>),
) {
    let reader = start_search::NodeReader {
        alloc: node.alloc,
        json: node.json,
        source: node.source,
    };
    let wanted = start_search::position_of(reader, condition).expect(rt, "memory");
    check_case(rt, text, path, wanted.path.as_str());
    check_case(rt, text, location, wanted.location);
}

/// That a flaw that was told of a node's JSON, as this text has it, is where the search as it was finds it.
fn check_location<T: Drop>(
    rt: &impl Abort,
    node: NodeReader<'_>,
    text: &str,
    read: Result<T, WellFormedError>,
    counts: &mut Counts,
) {
    match read {
        Ok(_) => counts.well_formed = counts.well_formed.wrapping_add(1),
        Err(WellFormedError::NotRead(error)) => panic!(rt; "{error}: {text}"),
        Err(
            WellFormedError::IllFormed {
                path,
                location,
                broken,
            },
        ) => {
            let found = (path.as_str(), location.0);
            check_position(rt, node, text, broken.condition, found);
            counts.add(broken.condition);
        }
    }
}

/// That of a text that is parsed, whose JSON the node's is.
fn check_parsed<T: AstJson + SyntaxTree + Drop>(
    rt: &impl Abort,
    node: NodeReader<'_>,
    text: &str,
    counts: &mut Counts,
) {
    let mut scratch = Scratch::new(node.alloc);
    let Ok(Some(value)) = parse_json(node.alloc, text, &mut scratch) else {
        panic!(rt; "{text}");
    };
    let parsed = JsonNode::parsed(node.alloc, &value, node.source, node.unknown);
    check_location::<T>(rt, node, text, read_well_formed_json(parsed), counts);
}

/// That of a text whose JSON the node's is.
fn check_text<T: AstJson + SyntaxTree + Drop>(
    rt: &impl Abort,
    node: NodeReader<'_>,
    text: &str,
    counts: &mut Counts,
) {
    if node.unknown == Unknown::Refuse {
        let read = from_well_formed_ast_json_str(node.alloc, text, node.source);
        check_location::<T>(rt, node, text, read, counts);
    } else {
        check_parsed::<T>(rt, node, text, counts);
    }
}

/// That of a node, whose JSON this text is: of the text as it stands and with the members of each object in the order of their names.
fn check_node<T: AstJson + SyntaxTree + Drop>(
    rt: &impl Abort,
    node: NodeReader<'_>,
    text: &str,
    counts: &mut Counts,
) {
    let in_order = node.json.to_string(node.alloc).expect(rt, "memory");
    let read = read_well_formed_ast_json(node);
    check_location::<T>(rt, node, text, read, counts);
    check_text::<T>(rt, node, text, counts);
    check_text::<T>(rt, node, in_order.as_str(), counts);
}

/// What is done with members that no node has, where these marks are.
fn rule_of(marks: Marks) -> Unknown {
    if marks.unknown {
        Unknown::PassOver
    } else {
        Unknown::Refuse
    }
}

/// That of a tree with these marks.
fn check_tree<T: AstJson + SyntaxTree + Drop>(
    rt: &impl Abort,
    alloc: Global,
    row: &str,
    marks: Marks,
    counts: &mut Counts,
) {
    counts.trees = counts.trees.wrapping_add(1);
    let text = marked_json(alloc, row, marks).expect(rt, "memory");
    let Ok(json) = Json::from_str(alloc, text.as_str()) else {
        panic!(rt; "{text}");
    };
    let node = NodeReader {
        alloc,
        json: &json,
        source: FileId::new(1),
        unknown: rule_of(marks),
    };
    check_node::<T>(rt, node, text.as_str(), counts);
}

/// That of a document of these definitions.
fn check_document(
    rt: &impl Abort,
    alloc: Global,
    definitions: &str,
    marks: Marks,
    counts: &mut Counts,
) {
    let row = format!(in alloc; "(Document;'definitions':[{definitions}])").expect(rt, "memory");
    check_tree::<Document>(rt, alloc, row.as_str(), marks, counts);
}

/// That of a document of definitions around this, with values and marks by turns.
fn check_filled(rt: &impl Abort, alloc: Global, around: &str, inner: &str, counts: &mut Counts) {
    let value = VALUES[counts.trees % VALUES.len()];
    let marks = MARKS[counts.trees % MARKS.len()];
    let definitions = filled(alloc, around, inner, value).expect(rt, "memory");
    check_document(rt, alloc, definitions.as_str(), marks, counts);
}

/// That of documents of each of these definitions around this, twice.
fn check_around(rt: &impl Abort, alloc: Global, rows: &[&str], inner: &str, counts: &mut Counts) {
    for around in rows {
        check_filled(rt, alloc, around, inner, counts);
        check_filled(rt, alloc, around, inner, counts);
    }
}

/// That of this value wherever one stands in a definition.
fn check_value(rt: &impl Abort, alloc: Global, value: &str, marks: Marks, counts: &mut Counts) {
    for (around, _, _) in AROUND {
        let definitions = filled(alloc, around, "", value).expect(rt, "memory");
        check_document(rt, alloc, definitions.as_str(), marks, counts);
    }
}

/// That of values and of directives by themselves.
fn check_alone(rt: &impl Abort, alloc: Global, value: &str, marks: Marks, counts: &mut Counts) {
    check_tree::<Value>(rt, alloc, value, marks, counts);
    let list =
        "[(Directive;'name':<d>),(Directive;'name':<d>,'arguments':[(Argument;'name':<a>,'value':#)])]";
    let directives = filled(alloc, list, "", value).expect(rt, "memory");
    check_tree::<DirectiveList>(rt, alloc, directives.as_str(), marks, counts);
}

/// That of selections with a flaw, in definitions.
fn check_selections(rt: &impl Abort, alloc: Global, counts: &mut Counts) {
    for inner in SELECTIONS {
        check_around(rt, alloc, &AROUND_SELECTIONS, inner, counts);
    }
}

/// That of definitions with a flaw.
fn check_definitions(rt: &impl Abort, alloc: Global, counts: &mut Counts) {
    for inner in DEFINITIONS {
        check_around(rt, alloc, &AROUND_DEFINITIONS, inner, counts);
    }
}

/// That of an empty document, and of a value in a definition and by itself.
fn check_marked(rt: &impl Abort, alloc: Global, value: &str, marks: Marks, counts: &mut Counts) {
    check_document(rt, alloc, "", marks, counts);
    check_value(rt, alloc, value, marks, counts);
    check_alone(rt, alloc, value, marks, counts);
}

fn check_values(rt: &impl Abort, alloc: Global, counts: &mut Counts) {
    for (index, value) in VALUES.iter().enumerate() {
        check_marked(rt, alloc, value, MARKS[index % MARKS.len()], counts);
    }
}

/// That there were some of each.
fn check_counts(rt: &impl Abort, counts: &Counts) {
    for count in counts.broken {
        check_equal(rt, count >= 20, true);
    }
    check_equal(rt, counts.well_formed >= 20, true);
}

#[test]
fn flaws_are_found_where_they_were(rt: HostRuntime) {
    let mut counts = Counts::new();
    check_selections(&rt, rt.alloc(), &mut counts);
    check_definitions(&rt, rt.alloc(), &mut counts);
    check_values(&rt, rt.alloc(), &mut counts);
    check_counts(&rt, &counts);
}
