//! Union types in AST JSON: definitions and extensions.
ghost use Rattle.graphql_type_system.specs.kinds.UnionTypes.{union_type_definition_kind, union_type_extension_kind};
ghost use Rattle.graphql_type_system.specs.trees.TypeSystemTrees.{union_type_definition_tree, union_type_extension_tree};
ghost use Rattle.graphql_ast_json.specs.kinds.TypeSystemJson.{IsUnionTypeDefinition, IsUnionTypeExtension};
ghost use Rattle.graphql_ast_json.specs.lemmas.TypeSystemNodes.{union_type_definition_laws, union_type_extension_laws};

use crate::ast_json::AstNode;
use crate::form::NamedTypeForm;
use crate::members::{directives, list, member, optional};
use crate::write::NodeWriter;
use ast_json_nodes::JsonNode;
use ast_json_nodes::error::AstJsonError;
use graphql_ast::ast::{UnionTypeDefinition, UnionTypeExtension};
use graphql_ast::name::Name;
use graphql_base::node::NodeStr;
use serde_json::Value as Json;
use std::alloc::AllocError;

impl AstNode for UnionTypeDefinition {
    ghost Tree = { union_type_definition_kind.Tree };

    ghost tree = { union_type_definition_tree };

    ghost is_node = { IsUnionTypeDefinition };

    ghost laws = { union_type_definition_laws };

    fn read_json_node(node: JsonNode<'_, '_>) -> Result<UnionTypeDefinition, AstJsonError> {
        node.check(
            "UnionTypeDefinition",
            &["description", "name", "directives", "types"],
        )?;
        Ok(UnionTypeDefinition {
            description: optional::<NodeStr>(node, "description")?,
            name: member::<Name>(node, "name")?,
            directives: directives(node)?,
            members: list::<NamedTypeForm>(node, "types")?,
        })
    }

    fn write_node(&self, mut node: NodeWriter) -> Result<Json, AllocError> {
        node.begin("UnionTypeDefinition")?;
        node.put_optional::<NodeStr>("description", &self.description)?;
        node.put::<Name>("name", &self.name)?;
        node.put_directives(&self.directives)?;
        node.put_list::<NamedTypeForm>("types", &self.members)?;
        Ok(node.into_json())
    }
}

impl AstNode for UnionTypeExtension {
    ghost Tree = { union_type_extension_kind.Tree };

    ghost tree = { union_type_extension_tree };

    ghost is_node = { IsUnionTypeExtension };

    ghost laws = { union_type_extension_laws };

    fn read_json_node(node: JsonNode<'_, '_>) -> Result<UnionTypeExtension, AstJsonError> {
        node.check("UnionTypeExtension", &["name", "directives", "types"])?;
        Ok(UnionTypeExtension {
            name: member::<Name>(node, "name")?,
            directives: directives(node)?,
            members: list::<NamedTypeForm>(node, "types")?,
        })
    }

    fn write_node(&self, mut node: NodeWriter) -> Result<Json, AllocError> {
        node.begin("UnionTypeExtension")?;
        node.put::<Name>("name", &self.name)?;
        node.put_directives(&self.directives)?;
        node.put_list::<NamedTypeForm>("types", &self.members)?;
        Ok(node.into_json())
    }
}
