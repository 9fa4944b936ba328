//! Type references are written.
ghost use Rattle.std.specs.Prelude.{IfOk};
ghost use Rattle.serde_json.specs.View.{view};
ghost use Rattle.graphql_text.specs.trees.Leaves.{name_tree};
ghost use Rattle.graphql_values.specs.trees.TypeTrees.{type_tree};
ghost use Rattle.graphql_ast_json.specs.code.Drafts.{location_of};
ghost use Rattle.ast_json_nodes.specs.code.NodeReading.{StandsAt};
ghost use Rattle.ast_json_nodes.specs.declared.read.Unknown.{Unknown};
ghost use Rattle.graphql_ast_json.specs.kinds.TypeJson.{IsNamedType, IsTypeReference};

use crate::ast_json::AstJson;
use crate::write::NodeWriter;
use graphql_ast::ast::{NamedType, Type};
use serde_json::Value as Json;
use std::alloc::AllocError;

/// The type reference as a node. `AllocError` if an allocation fails.
pub(crate) fn write_type(node: NodeWriter, ty: &Type) -> Result<Json, AllocError>
    ensures ok { IfOk result (λ json. (unknown : Unknown)
        → IsTypeReference unknown (type_tree ty.now) (view json)) }
    ensures stands { IfOk result (λ json. StandsAt (location_of node) (view json)) }
{
    let alloc = node.allocator();
    match ty {
        Type::Named(name) => write_named_type(node, name),
        Type::NonNullNamed(name) => {
            let inner = write_named_type(NodeWriter::new(alloc, None), name)?;
            node.with_member("NonNullType", "type", inner)
        }
        Type::List(item) => {
            let inner = write_type(NodeWriter::new(alloc, None), item)?;
            node.with_member("ListType", "type", inner)
        }
        Type::NonNullList(item) => {
            let inner = write_type(NodeWriter::new(alloc, None), item)?;
            let list = NodeWriter::new(alloc, None).with_member("ListType", "type", inner)?;
            node.with_member("NonNullType", "type", list)
        }
    }
}

/// A named type.
pub(crate) fn write_named_type(node: NodeWriter, name: &NamedType) -> Result<Json, AllocError>
    ensures ok { IfOk result (λ json. (unknown : Unknown)
        → IsNamedType unknown (name_tree name.now) (view json)) }
    ensures stands { IfOk result (λ json. StandsAt (location_of node) (view json)) }
{
    let inner = name.to_ast_json(node.allocator())?;
    node.with_member("NamedType", "name", inner)
}
