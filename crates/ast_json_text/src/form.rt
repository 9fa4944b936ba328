//! Forms of AST JSON in which values are written.
ghost use Rattle.serde_json.specs.Data.{Data};
ghost use Rattle.graphql_base.specs.Node.{node_value};
ghost use Rattle.graphql_text.specs.trees.Leaves.{name_tree};
ghost use Rattle.graphql_text.specs.lexical.Literals.{NameText};
ghost use Rattle.graphql_executable.specs.trees.ExecutableTrees.{selection_trees};
ghost use Rattle.graphql_executable.specs.kinds.Selections.{SelectionTrees};
ghost use Rattle.ast_json_nodes.specs.declared.read.Unknown.{Unknown};
ghost use Rattle.ast_json_nodes.specs.nodes.OneTree.{JsonLaws};
ghost use Rattle.graphql_ast_json.specs.kinds.ExecutableJson.{IsSelectionSet, IsVariable};
ghost use Rattle.graphql_ast_json.specs.kinds.TypeJson.{IsNamedType};
ghost use Rattle.graphql_ast_json.specs.lemmas.ExecutableNodes.{selection_set_laws, variable_laws};
ghost use Rattle.graphql_ast_json.specs.lemmas.Leaves.{json_laws};
ghost use Rattle.graphql_ast_json.specs.lemmas.TypeNodes.{named_type_laws};
ghost use Rattle.json_text.specs.Texts.{WritesJson};

use crate::context::NodeContext;
use crate::selection::write_selection_set;
use crate::text::{WriteAstJson, WriteAstNode};
use crate::types::write_named_type;
use crate::value::write_variable;
use graphql_ast::ast::{NamedType, Selection};
use graphql_ast::name::Name;
use graphql_base::node::Node;
use graphql_text::writers::Target;
use std::marker::PhantomData;

/// A form in which values of a type are written. What has `WriteAstJson` has a form of its own; the name of a type also
/// stands as a node `NamedType`, that of a variable as a node `Variable`, and selections as a node `SelectionSet`.
pub trait WriteForm {
    type Value: Drop;

    ghost Tree: { Type 0 };

    ghost tree: { Self.Value → Tree };

    ghost is_json_of: { Unknown → Tree → Data → Type 0 };

    fn write_form<O: Target>(out: &mut O, value: &Self::Value)
        ensures { WritesJson O.wrote out.old out.new (λ json. (unknown : Unknown)
            → is_json_of unknown (tree value.now) json) };

    ghost laws: { JsonLaws is_json_of };
}

impl<T: WriteAstJson + Drop> WriteForm for T {
    type Value = T;

    ghost Tree = { T.Tree };

    ghost tree = { T.tree };

    ghost is_json_of = { T.is_json_of };

    ghost laws = { T.laws };

    fn write_form<O: Target>(out: &mut O, value: &T) {
        value.write_ast_json(out);
    }
}

/// A node that the default layout prints on one line, so that no string in it is a block string.
pub struct OnOneLine<T> {
    node: PhantomData<T>,
}

impl<T: WriteAstNode + Drop> WriteForm for OnOneLine<T> {
    type Value = Node<T>;

    ghost Tree = { T.Tree };

    ghost tree = { λ node. T.tree (node_value node) };

    ghost is_json_of = { T.is_node };

    ghost laws = { json_laws T.laws };

    fn write_form<O: Target>(out: &mut O, value: &Node<T>) {
        value
            .as_ref()
            .write_ast_node(out, NodeContext::on_one_line(value.location()));
    }
}

/// The name of a type, as a node `NamedType`.
pub struct NamedTypeForm;

impl WriteForm for NamedTypeForm {
    type Value = NamedType;

    ghost Tree = { NameText };

    ghost tree = { name_tree };

    ghost is_json_of = { IsNamedType };

    ghost laws = { json_laws named_type_laws };

    fn write_form<O: Target>(out: &mut O, value: &NamedType) {
        write_named_type(out, None, value);
    }
}

/// The name of a variable, as a node `Variable`.
pub struct VariableForm;

impl WriteForm for VariableForm {
    type Value = Name;

    ghost Tree = { NameText };

    ghost tree = { name_tree };

    ghost is_json_of = { IsVariable };

    ghost laws = { json_laws variable_laws };

    fn write_form<O: Target>(out: &mut O, value: &Name) {
        write_variable(out, None, value);
    }
}

/// Selections, as a node `SelectionSet`.
pub struct SelectionSetForm;

impl WriteForm for SelectionSetForm {
    type Value = Vec<Selection>;

    ghost Tree = { SelectionTrees };

    ghost tree = { λ selections. selection_trees selections.items };

    ghost is_json_of = { IsSelectionSet };

    ghost laws = { json_laws selection_set_laws };

    fn write_form<O: Target>(out: &mut O, value: &Vec<Selection>) {
        write_selection_set(out, value.as_slice());
    }
}
