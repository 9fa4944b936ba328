//! Object types in AST JSON: definitions and extensions.
ghost use Rattle.graphql_type_system.specs.kinds.ObjectTypes.{object_type_definition_kind, object_type_extension_kind};
ghost use Rattle.graphql_type_system.specs.trees.TypeSystemTrees.{object_type_definition_tree, object_type_extension_tree};
ghost use Rattle.graphql_ast_json.specs.kinds.TypeSystemJson.{IsObjectTypeDefinition, IsObjectTypeExtension};
ghost use Rattle.graphql_ast_json.specs.lemmas.TypeSystemNodes.{object_type_definition_laws, object_type_extension_laws};

use crate::ast_json::AstNode;
use crate::form::NamedTypeForm;
use crate::members::{directives, list, member, optional};
use crate::write::NodeWriter;
use ast_json_nodes::JsonNode;
use ast_json_nodes::error::AstJsonError;
use graphql_ast::ast::{FieldDefinition, ObjectTypeDefinition, ObjectTypeExtension};
use graphql_ast::name::Name;
use graphql_base::node::{Node, NodeStr};
use serde_json::Value as Json;
use std::alloc::AllocError;

impl AstNode for ObjectTypeDefinition {
    ghost Tree = { object_type_definition_kind.Tree };

    ghost tree = { object_type_definition_tree };

    ghost is_node = { IsObjectTypeDefinition };

    ghost laws = { object_type_definition_laws };

    fn read_json_node(node: JsonNode<'_, '_>) -> Result<ObjectTypeDefinition, AstJsonError> {
        node.check(
            "ObjectTypeDefinition",
            &["description", "name", "interfaces", "directives", "fields"],
        )?;
        Ok(ObjectTypeDefinition {
            description: optional::<NodeStr>(node, "description")?,
            name: member::<Name>(node, "name")?,
            implements_interfaces: list::<NamedTypeForm>(node, "interfaces")?,
            directives: directives(node)?,
            fields: list::<Node<FieldDefinition>>(node, "fields")?,
        })
    }

    fn write_node(&self, mut node: NodeWriter) -> Result<Json, AllocError> {
        node.begin("ObjectTypeDefinition")?;
        node.put_optional::<NodeStr>("description", &self.description)?;
        node.put::<Name>("name", &self.name)?;
        node.put_list::<NamedTypeForm>("interfaces", &self.implements_interfaces)?;
        node.put_directives(&self.directives)?;
        node.put_list::<Node<FieldDefinition>>("fields", &self.fields)?;
        Ok(node.into_json())
    }
}

impl AstNode for ObjectTypeExtension {
    ghost Tree = { object_type_extension_kind.Tree };

    ghost tree = { object_type_extension_tree };

    ghost is_node = { IsObjectTypeExtension };

    ghost laws = { object_type_extension_laws };

    fn read_json_node(node: JsonNode<'_, '_>) -> Result<ObjectTypeExtension, AstJsonError> {
        node.check(
            "ObjectTypeExtension",
            &["name", "interfaces", "directives", "fields"],
        )?;
        Ok(ObjectTypeExtension {
            name: member::<Name>(node, "name")?,
            implements_interfaces: list::<NamedTypeForm>(node, "interfaces")?,
            directives: directives(node)?,
            fields: list::<Node<FieldDefinition>>(node, "fields")?,
        })
    }

    fn write_node(&self, mut node: NodeWriter) -> Result<Json, AllocError> {
        node.begin("ObjectTypeExtension")?;
        node.put::<Name>("name", &self.name)?;
        node.put_list::<NamedTypeForm>("interfaces", &self.implements_interfaces)?;
        node.put_directives(&self.directives)?;
        node.put_list::<Node<FieldDefinition>>("fields", &self.fields)?;
        Ok(node.into_json())
    }
}
