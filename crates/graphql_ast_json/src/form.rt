//! Forms of AST JSON that values are read from and written in.
ghost use Rattle.std.specs.Prelude.{IfOk, IfErr, None};
ghost use Rattle.serde_json.specs.Data.{Data};
ghost use Rattle.serde_json.specs.View.{view};
ghost use Rattle.graphql_base.specs.Node.{node_location, node_value};
ghost use Rattle.graphql_text.specs.trees.Leaves.{name_tree};
ghost use Rattle.graphql_text.specs.lexical.Literals.{NameText};
ghost use Rattle.graphql_executable.specs.trees.ExecutableTrees.{selection_trees};
ghost use Rattle.graphql_executable.specs.kinds.Selections.{SelectionTrees};
ghost use Rattle.ast_json_nodes.specs.code.Errors.{IsMemory};
ghost use Rattle.ast_json_nodes.specs.code.JsonNodes.{IsFromNone, IsReadFrom};
ghost use Rattle.ast_json_nodes.specs.code.NodeReading.{StandsAt};
ghost use Rattle.ast_json_nodes.specs.declared.read.Unknown.{Unknown};
ghost use Rattle.graphql_ast_json.specs.kinds.ExecutableJson.{IsSelectionSet, IsVariable};
ghost use Rattle.graphql_ast_json.specs.kinds.TypeJson.{IsNamedType};
ghost use Rattle.graphql_ast_json.specs.lemmas.ExecutableNodes.{selection_set_laws, variable_laws};
ghost use Rattle.graphql_ast_json.specs.lemmas.Leaves.{json_laws};
ghost use Rattle.graphql_ast_json.specs.lemmas.TypeNodes.{named_type_laws};
ghost use Rattle.ast_json_nodes.specs.nodes.OneTree.{JsonLaws};

use crate::ast_json::{AstJson, AstNode};
use crate::selection::read::read_selection_set;
use crate::selection::write::write_selection_set;
use crate::types::read::read_named_type;
use crate::types::write::write_named_type;
use crate::value::read::variable_name;
use crate::value::write::write_variable;
use crate::write::NodeWriter;
use ast_json_nodes::JsonNode;
use ast_json_nodes::error::AstJsonError;
use graphql_ast::ast::{NamedType, Selection};
use graphql_ast::name::Name;
use graphql_base::node::Node;
use serde_json::Value as Json;
use std::alloc::{AllocError, Global};
use std::marker::PhantomData;

/// A form in which values of a type stand in AST JSON. What has `AstJson` has a form of its own; the name of a type
/// also stands as a node `NamedType`, that of a variable as a node `Variable`, and selections as a node `SelectionSet`.
pub trait Form {
    type Value: Drop;

    ghost Tree: { Type 0 };

    ghost tree: { Self.Value → Tree };

    ghost is_json_of: { Unknown → Tree → Data → Type 0 };

    /// Whether a value is written where the JSON tells.
    ghost stands: { Self.Value → Data → Type 0 };

    fn read(node: JsonNode<'_, '_>) -> Result<Self::Value, AstJsonError>
        ensures ok { IfOk result (λ value. IsReadFrom is_json_of node.entry (tree value)) }
        ensures err { IfErr result (λ error. ¬ IsMemory error → IsFromNone is_json_of node.entry) };

    fn write(alloc: Global, value: &Self::Value) -> Result<Json, AllocError>
        ensures ok { IfOk result (λ json. (unknown : Unknown)
            → is_json_of unknown (tree value.now) (view json)) }
        ensures stands { IfOk result (λ json. stands value.now (view json)) };

    ghost laws: { JsonLaws is_json_of };
}

impl<T: AstJson + Drop> Form for T {
    type Value = T;

    ghost Tree = { T.Tree };

    ghost tree = { T.tree };

    ghost is_json_of = { T.is_json_of };

    ghost stands = { T.stands };

    ghost laws = { T.laws };

    fn read(node: JsonNode<'_, '_>) -> Result<T, AstJsonError> {
        T::read_json(node)
    }

    fn write(alloc: Global, value: &T) -> Result<Json, AllocError> {
        value.to_ast_json(alloc)
    }
}

/// A node that the default layout prints on one line, so that no string in it is a block string.
pub struct OnOneLine<T> {
    node: PhantomData<T>,
}

impl<T: AstNode + Drop> Form for OnOneLine<T> {
    type Value = Node<T>;

    ghost Tree = { T.Tree };

    ghost tree = { λ node. T.tree (node_value node) };

    ghost is_json_of = { T.is_node };

    ghost stands = { λ node. StandsAt (node_location node) };

    ghost laws = { json_laws T.laws };

    fn read(node: JsonNode<'_, '_>) -> Result<Node<T>, AstJsonError> {
        Node::read_json(node)
    }

    fn write(alloc: Global, value: &Node<T>) -> Result<Json, AllocError> {
        value
            .as_ref()
            .write_node(NodeWriter::on_one_line(alloc, value.location()))
    }
}

/// The name of a type, as a node `NamedType`.
pub struct NamedTypeForm;

impl Form for NamedTypeForm {
    type Value = NamedType;

    ghost Tree = { NameText };

    ghost tree = { name_tree };

    ghost is_json_of = { IsNamedType };

    ghost stands = { λ _. StandsAt None };

    ghost laws = { json_laws named_type_laws };

    fn read(node: JsonNode<'_, '_>) -> Result<NamedType, AstJsonError> {
        node.location()?;
        read_named_type(node)
    }

    fn write(alloc: Global, value: &NamedType) -> Result<Json, AllocError> {
        write_named_type(NodeWriter::new(alloc, None), value)
    }
}

/// The name of a variable, as a node `Variable`.
pub struct VariableForm;

impl Form for VariableForm {
    type Value = Name;

    ghost Tree = { NameText };

    ghost tree = { name_tree };

    ghost is_json_of = { IsVariable };

    ghost stands = { λ _. StandsAt None };

    ghost laws = { json_laws variable_laws };

    fn read(node: JsonNode<'_, '_>) -> Result<Name, AstJsonError> {
        node.location()?;
        variable_name(node)
    }

    fn write(alloc: Global, value: &Name) -> Result<Json, AllocError> {
        write_variable(NodeWriter::new(alloc, None), value)
    }
}

/// Selections, as a node `SelectionSet`.
pub struct SelectionSetForm;

impl Form for SelectionSetForm {
    type Value = Vec<Selection>;

    ghost Tree = { SelectionTrees };

    ghost tree = { λ selections. selection_trees selections.items };

    ghost is_json_of = { IsSelectionSet };

    ghost stands = { λ _. StandsAt None };

    ghost laws = { json_laws selection_set_laws };

    fn read(node: JsonNode<'_, '_>) -> Result<Vec<Selection>, AstJsonError> {
        read_selection_set(node)
    }

    fn write(alloc: Global, value: &Vec<Selection>) -> Result<Json, AllocError> {
        write_selection_set(alloc, value.as_slice())
    }
}
