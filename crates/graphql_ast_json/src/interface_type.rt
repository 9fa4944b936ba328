//! Interface types in AST JSON: definitions and extensions.
ghost use Rattle.graphql_type_system.specs.kinds.InterfaceTypes.{interface_type_definition_kind, interface_type_extension_kind};
ghost use Rattle.graphql_type_system.specs.trees.TypeSystemTrees.{interface_type_definition_tree, interface_type_extension_tree};
ghost use Rattle.graphql_ast_json.specs.kinds.TypeSystemJson.{IsInterfaceTypeDefinition, IsInterfaceTypeExtension};
ghost use Rattle.graphql_ast_json.specs.lemmas.TypeSystemNodes.{interface_type_definition_laws, interface_type_extension_laws};

use crate::ast_json::AstNode;
use crate::form::NamedTypeForm;
use crate::members::{directives, list, member, optional};
use crate::write::NodeWriter;
use ast_json_nodes::JsonNode;
use ast_json_nodes::error::AstJsonError;
use graphql_ast::ast::{FieldDefinition, InterfaceTypeDefinition, InterfaceTypeExtension};
use graphql_ast::name::Name;
use graphql_base::node::{Node, NodeStr};
use serde_json::Value as Json;
use std::alloc::AllocError;

impl AstNode for InterfaceTypeDefinition {
    ghost Tree = { interface_type_definition_kind.Tree };

    ghost tree = { interface_type_definition_tree };

    ghost is_node = { IsInterfaceTypeDefinition };

    ghost laws = { interface_type_definition_laws };

    fn read_json_node(node: JsonNode<'_, '_>) -> Result<InterfaceTypeDefinition, AstJsonError> {
        node.check(
            "InterfaceTypeDefinition",
            &["description", "name", "interfaces", "directives", "fields"],
        )?;
        Ok(InterfaceTypeDefinition {
            description: optional::<NodeStr>(node, "description")?,
            name: member::<Name>(node, "name")?,
            implements_interfaces: list::<NamedTypeForm>(node, "interfaces")?,
            directives: directives(node)?,
            fields: list::<Node<FieldDefinition>>(node, "fields")?,
        })
    }

    fn write_node(&self, mut node: NodeWriter) -> Result<Json, AllocError> {
        node.begin("InterfaceTypeDefinition")?;
        node.put_optional::<NodeStr>("description", &self.description)?;
        node.put::<Name>("name", &self.name)?;
        node.put_list::<NamedTypeForm>("interfaces", &self.implements_interfaces)?;
        node.put_directives(&self.directives)?;
        node.put_list::<Node<FieldDefinition>>("fields", &self.fields)?;
        Ok(node.into_json())
    }
}

impl AstNode for InterfaceTypeExtension {
    ghost Tree = { interface_type_extension_kind.Tree };

    ghost tree = { interface_type_extension_tree };

    ghost is_node = { IsInterfaceTypeExtension };

    ghost laws = { interface_type_extension_laws };

    fn read_json_node(node: JsonNode<'_, '_>) -> Result<InterfaceTypeExtension, AstJsonError> {
        node.check(
            "InterfaceTypeExtension",
            &["name", "interfaces", "directives", "fields"],
        )?;
        Ok(InterfaceTypeExtension {
            name: member::<Name>(node, "name")?,
            implements_interfaces: list::<NamedTypeForm>(node, "interfaces")?,
            directives: directives(node)?,
            fields: list::<Node<FieldDefinition>>(node, "fields")?,
        })
    }

    fn write_node(&self, mut node: NodeWriter) -> Result<Json, AllocError> {
        node.begin("InterfaceTypeExtension")?;
        node.put::<Name>("name", &self.name)?;
        node.put_list::<NamedTypeForm>("interfaces", &self.implements_interfaces)?;
        node.put_directives(&self.directives)?;
        node.put_list::<Node<FieldDefinition>>("fields", &self.fields)?;
        Ok(node.into_json())
    }
}
