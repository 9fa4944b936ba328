//! A first program over the syntax tree: builds a directive, looks an argument up, changes one, and prints.
#![tactic(auto)]

ghost use Rattle.std.specs.Prelude.{◌≡◌, ◌↔◌, IfOk, IsErrOf, IsTrue, None, OnErr, OnOk, string_bytes};
ghost use Rattle.graphql_ast.specs.Name.{name_text};
ghost use Rattle.graphql_ast.specs.Reading.{BytesReadAs};
ghost use Rattle.graphql_ast.specs.Loans.{with_value_of};
ghost use Rattle.graphql_ast.specs.Queries.{first_argument_named};
ghost use Rattle.graphql_ast.specs.Values.{NonConst, value_form, value_obeys};
ghost use Rattle.graphql_ast.specs.ValueTrees.{value_tree};

use anyhow::{Context, Result};
use graphql_ast::ast::{Argument, Directive, SpecifiedArgumentError, Value};
use graphql_ast::name::{Name, NameError};
use graphql_ast::node::Node;
use graphql_ast::serialize::PrintError;
use graphql_ast::sink::StreamSink;
use graphql_ast::{name, value};
use std::alloc::{AllocError, Global};
use std::io::Write;

/// A node of a string.
fn text_node(alloc: Global, text: &str) -> Result<Node<Value>, AllocError> {
    Node::new(alloc, Value::from_text(alloc, text)?)
}

/// `{tags: ["new", "on \"sale\""], note: "two\nlines"}`.
fn search_filter(alloc: Global) -> Result<Node<Value>, AllocError> {
    let filter = value!(in alloc; {tags: ["new", "on \"sale\""], note: "two\nlines"})?;
    Node::new(alloc, filter)
}

/// `@search(text: "shoes", filter: {..})`.
fn search_directive(alloc: Global) -> Result<Directive, AllocError> {
    let arguments = vec![in alloc;
        Argument::new_node(alloc, name!(text), text_node(alloc, "shoes")?)?,
        Argument::new_node(alloc, name!(filter), search_filter(alloc)?)?,
    ]?;
    Ok(Directive {
        name: name!(search),
        arguments,
    })
}

/// Writes a value into the first argument of that name. All else stays.
fn set_argument(
    directive: &mut Directive,
    name: &str,
    value: Node<Value>,
) -> Result<(), SpecifiedArgumentError>
    ensures ok { OnOk result
        (directive.new.arguments.items
        ≡ with_value_of name.now value directive.old.arguments.items) }
    ensures err { OnErr result (directive.new.arguments.items ≡ directive.old.arguments.items) }
    ensures not_specified { IsErrOf result SpecifiedArgumentError.NotSpecified ↔
        (first_argument_named name.now directive.old.arguments.items ≡ None) }
{
    *directive.specified_argument_by_name_mut(name)? = value;
    Ok(())
}

/// Gives a directive another name. `NameError::Invalid` where the text is no name.
fn rename(alloc: Global, directive: &mut Directive, text: &str) -> Result<(), NameError>
    ensures ok { OnOk result (name_text directive.new.name ≡ text.now) }
    ensures err { OnErr result (directive.new.name ≡ directive.old.name) }
{
    directive.name = Name::new(alloc, text)?;
    Ok(())
}

/// The value on one line. If it is well formed, the text is read as that value.
fn one_line(alloc: Global, value: &Value) -> Result<String, PrintError>
    ensures read { IfOk result (λ text. IsTrue (value_obeys NonConst (value_tree value.now)) →
        BytesReadAs (value_form NonConst) (string_bytes text) (value_tree value.now)) }
{
    value.serialize().no_indent().to_text(alloc)
}

fn main(rt: HostRuntime) -> Result<()> {
    let alloc = rt.alloc();
    let mut directive = search_directive(alloc)?;

    // The value of an argument in three layouts: the default, on one line, and under another prefix from level 1.
    let filter = directive
        .specified_argument_by_name("filter")
        .context("no argument `filter`")?;
    println!(rt; "{filter}")?;
    println!(rt; "{}", one_line(alloc, filter)?)?;
    let indented = filter.serialize().indent_prefix("    ");
    println!(rt; "{}", indented.initial_indent_level(1))?;

    // A directive with another value in one argument, into a stream.
    set_argument(&mut directive, "text", text_node(alloc, "boots")?)?;
    let mut sink = StreamSink::new(rt.stdout());
    directive.serialize().print_to(&mut sink)?;
    writeln!(sink.into_inner())?;

    // A text that is no name is refused, and the refusal says why.
    if let Err(error) = rename(alloc, &mut directive, "2nd search") {
        println!(rt; "{error}")?;
    }
    Ok(())
}
