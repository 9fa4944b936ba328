//! JSON of trees that aren't well formed is refused, with the position of the first flaw.
use crate::checks::{check_case, check_equal};
use crate::ill_formed_samples::{
    AROUND, FLAWED, NOTATION, ONE, PARTS, RESERVED, VARIABLE, WELL_FORMED,
};
use graphql_ast::ast::{DirectiveList, Document, EnumTypeExtension, Value};
use graphql_ast::ill_formed::SideCondition;
use graphql_ast::serialize::SyntaxTree;
use graphql_ast_json::{
    AstJson, AstJsonError, NodeReader, Unknown, WellFormedError, from_well_formed_ast_json_str,
    read_well_formed_ast_json,
};
use graphql_base::span::FileId;
use serde_json::Value as Json;
use std::alloc::Global;
use std::process::Abort;

/// A text with what stands for each of these characters.
fn replaced(rt: &impl Abort, alloc: Global, text: &str, table: &[(char, &str)]) -> String {
    let mut whole = String::new(alloc);
    for character in text.chars() {
        match table.iter().find(|row| row.0 == character) {
            Some((_, long)) => whole.push_str(long).expect(rt, "memory"),
            None => whole.push(character).expect(rt, "memory"),
        }
    }
    whole
}

/// The JSON of a row with this value.
fn json_of(rt: &impl Abort, alloc: Global, row: &str, value: &str) -> String {
    let parts = replaced(rt, alloc, row, &PARTS);
    let values = replaced(rt, alloc, parts.as_str(), &[('#', value)]);
    replaced(rt, alloc, values.as_str(), &NOTATION)
}

/// What is said of JSON: nothing where it is of a well-formed tree.
fn said<T: AstJson + SyntaxTree + Drop>(rt: &impl Abort, alloc: Global, json: &str) -> String {
    match from_well_formed_ast_json_str::<T>(alloc, json, FileId::new(1)) {
        Ok(_) => String::new(alloc),
        Err(error) => format!(in alloc; "{error}").expect(rt, "memory"),
    }
}

/// That this is said of the JSON of a row with this value.
fn check_said<T: AstJson + SyntaxTree + Drop>(
    rt: &impl Abort,
    alloc: Global,
    row: &str,
    value: &str,
    wanted: &str,
) {
    let json = json_of(rt, alloc, row, value);
    let said = said::<T>(rt, alloc, json.as_str());
    check_case(rt, row, said.as_str(), wanted);
}

/// That this is said of a document of these definitions.
fn check(rt: &impl Abort, alloc: Global, definitions: &str, value: &str, wanted: &str) {
    let row = format!(in alloc; "(Document;'definitions':[{definitions}])").expect(rt, "memory");
    check_said::<Document>(rt, alloc, row.as_str(), value, wanted);
}

/// Each kind that has a side condition, with a flaw.
fn check_flawed(rt: &impl Abort, alloc: Global) {
    for (row, wanted) in FLAWED {
        check(rt, alloc, row, "(EnumValue;'value':'true')", wanted);
    }
}

/// And without one.
fn check_well_formed(rt: &impl Abort, alloc: Global) {
    for row in WELL_FORMED {
        check(rt, alloc, row, VARIABLE, "");
    }
}

/// A reserved enum value in a value that stands at this path in the definition of a row.
fn check_reserved(rt: &impl Abort, alloc: Global, row: &str, path: &str) {
    let wanted = format!(in alloc;
        "at `definitions[0].{path}.values[1].fields[0].value.value`: a reserved enum value: `null`"
    );
    check(
        rt,
        alloc,
        row,
        RESERVED,
        wanted.expect(rt, "memory").as_str(),
    );
}

/// The same of a variable, which is a flaw where only constants may stand.
fn check_variable(rt: &impl Abort, alloc: Global, row: &str, path: &str, is_constant: bool) {
    let told = format!(in alloc;
        "at `definitions[0].{path}.values[1].fields[0].value`: a variable where only constants may stand: `x`"
    ).expect(rt, "memory");
    let wanted = if is_constant { told.as_str() } else { "" };
    check(rt, alloc, row, VARIABLE, wanted);
}

/// A value without a flaw and with each, in the definition of a row.
fn check_around(rt: &impl Abort, alloc: Global, row: &str, around: &str, is_constant: bool) {
    check(rt, alloc, row, ONE, "");
    let inner = [('@', "directives[0].arguments[0].value")];
    let path = replaced(rt, alloc, around, &inner);
    check_reserved(rt, alloc, row, path.as_str());
    check_variable(rt, alloc, row, path.as_str(), is_constant);
}

/// In each kind that has a side condition, and in a value wherever one may stand.
#[test]
fn flaws_are_located(rt: HostRuntime) {
    check_flawed(&rt, rt.alloc());
    check_well_formed(&rt, rt.alloc());
    for (row, around, is_constant) in AROUND {
        check_around(&rt, rt.alloc(), row, around, is_constant);
    }
}

const DIRECTIVES: &str = "[(Directive;'name':<d>,'arguments':[(Argument;'name':<a>,'value':#)])]";

const EXTENSION: &str = "(EnumTypeExtension;'name':<E>)";

fn check_values(rt: &impl Abort, alloc: Global) {
    check_said::<Value>(
        rt,
        alloc,
        RESERVED,
        "",
        "at `values[1].fields[0].value.value`: a reserved enum value: `null`",
    );
    check_said::<Value>(rt, alloc, VARIABLE, "", "");
    check_said::<DirectiveList>(
        rt,
        alloc,
        DIRECTIVES,
        RESERVED,
        "at `[0].arguments[0].value.values[1].fields[0].value.value`: a reserved enum value: `null`",
    );
}

fn check_extensions(rt: &impl Abort, alloc: Global) {
    let nothing = "at the root: an extension that adds nothing: `E`";
    check_said::<EnumTypeExtension>(rt, alloc, EXTENSION, "", nothing);
    let no_object = "at the root: found a number where an object was wanted";
    check_said::<EnumTypeExtension>(rt, alloc, "7", "", no_object);
}

fn check_document(rt: &impl Abort, alloc: Global) {
    let row = "(Document;'definitions':[(ScalarTypeDefinition;'name':<A>,@)])";
    let text = json_of(rt, alloc, row, ONE);
    let read = from_well_formed_ast_json_str::<Document>(alloc, text.as_str(), FileId::new(1));
    let Ok(document) = read else {
        panic!(rt; "a document");
    };
    let printed = document.serialize().no_indent().to_text(alloc);
    let printed = printed.expect(rt, "memory");
    check_equal(rt, printed.as_str(), "scalar A @d(a: 1)");
}

/// Trees of other kinds than documents, and JSON that isn't read. And a well-formed document is read as the document that it is read
/// as without the test.
#[test]
fn trees_of_each_kind_are_told(rt: HostRuntime) {
    check_values(&rt, rt.alloc());
    check_extensions(&rt, rt.alloc());
    check_document(&rt, rt.alloc());
}

/// That the flaw is a reserved value, in a default value.
fn check_default_value(rt: &impl Abort, error: WellFormedError) {
    let WellFormedError::IllFormed {
        path,
        location,
        broken,
    } = error
    else {
        panic!(rt; "ill formed");
    };
    let wanted = "definitions[0].arguments[0].defaultValue.value";
    check_equal(rt, path.as_str(), wanted);
    check_equal(rt, location.0, None);
    check_equal(rt, broken.condition, SideCondition::IsNotReserved);
    let name = broken.name.as_ref().map(|name| name.as_str());
    check_equal(rt, name, Some("true"));
}

/// That JSON is of a document with this flaw, whatever members its nodes have beside those of their kinds.
fn check_passed_over(rt: &impl Abort, alloc: Global, json: &Json) {
    let node = NodeReader {
        alloc,
        json,
        source: FileId::new(1),
        unknown: Unknown::PassOver,
    };
    match read_well_formed_ast_json::<Document>(node) {
        Ok(_) => panic!(rt; "ill formed"),
        Err(error) => check_default_value(rt, error),
    }
}

/// What no node of a kind has isn't looked into, though a node of another kind has it.
#[test]
fn what_is_passed_over_has_no_flaws(rt: HostRuntime) {
    let alloc = rt.alloc();
    let row = "(Document;'definitions':[(DirectiveDefinition;@,'fields':[#],'name':<d>,\
         'arguments':[(InputValueDefinition;'name':<a>,%,'values':[#],'defaultValue':#)],'locations':[<FIELD>])])";
    let text = json_of(&rt, alloc, row, "(EnumValue;'value':'true')");
    let Ok(json) = Json::from_str(alloc, text.as_str()) else {
        panic!(rt; "JSON");
    };
    check_passed_over(&rt, alloc, &json);
    let error = WellFormedError::NotRead(AstJsonError::Memory);
    check_equal(&rt, error.is_memory(), true);
}
