//! Scalar types in AST JSON: definitions and extensions.
ghost use Rattle.graphql_type_system.specs.kinds.ScalarTypes.{scalar_type_definition_kind, scalar_type_extension_kind};
ghost use Rattle.graphql_type_system.specs.trees.TypeSystemTrees.{scalar_type_definition_tree, scalar_type_extension_tree};
ghost use Rattle.graphql_ast_json.specs.kinds.TypeSystemJson.{IsScalarTypeDefinition, IsScalarTypeExtension};
ghost use Rattle.graphql_ast_json.specs.lemmas.TypeSystemNodes.{scalar_type_definition_laws, scalar_type_extension_laws};

use crate::ast_json::AstNode;
use crate::members::{directives, member, optional};
use crate::write::NodeWriter;
use ast_json_nodes::JsonNode;
use ast_json_nodes::error::AstJsonError;
use graphql_ast::ast::{ScalarTypeDefinition, ScalarTypeExtension};
use graphql_ast::name::Name;
use graphql_base::node::NodeStr;
use serde_json::Value as Json;
use std::alloc::AllocError;

impl AstNode for ScalarTypeDefinition {
    ghost Tree = { scalar_type_definition_kind.Tree };

    ghost tree = { scalar_type_definition_tree };

    ghost is_node = { IsScalarTypeDefinition };

    ghost laws = { scalar_type_definition_laws };

    fn read_json_node(node: JsonNode<'_, '_>) -> Result<ScalarTypeDefinition, AstJsonError> {
        node.check(
            "ScalarTypeDefinition",
            &["description", "name", "directives"],
        )?;
        Ok(ScalarTypeDefinition {
            description: optional::<NodeStr>(node, "description")?,
            name: member::<Name>(node, "name")?,
            directives: directives(node)?,
        })
    }

    fn write_node(&self, mut node: NodeWriter) -> Result<Json, AllocError> {
        node.begin("ScalarTypeDefinition")?;
        node.put_optional::<NodeStr>("description", &self.description)?;
        node.put::<Name>("name", &self.name)?;
        node.put_directives(&self.directives)?;
        Ok(node.into_json())
    }
}

impl AstNode for ScalarTypeExtension {
    ghost Tree = { scalar_type_extension_kind.Tree };

    ghost tree = { scalar_type_extension_tree };

    ghost is_node = { IsScalarTypeExtension };

    ghost laws = { scalar_type_extension_laws };

    fn read_json_node(node: JsonNode<'_, '_>) -> Result<ScalarTypeExtension, AstJsonError> {
        node.check("ScalarTypeExtension", &["name", "directives"])?;
        Ok(ScalarTypeExtension {
            name: member::<Name>(node, "name")?,
            directives: directives(node)?,
        })
    }

    fn write_node(&self, mut node: NodeWriter) -> Result<Json, AllocError> {
        node.begin("ScalarTypeExtension")?;
        node.put::<Name>("name", &self.name)?;
        node.put_directives(&self.directives)?;
        Ok(node.into_json())
    }
}
