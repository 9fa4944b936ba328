//! Definitions in AST JSON: each is the node that it is by itself.
ghost use Rattle.graphql_ast.specs.AstTrees.{definition_tree};
ghost use Rattle.graphql_ast.specs.DefinitionQueries.{definition_location};
ghost use Rattle.graphql_ast.specs.Definitions.{DefinitionTree};
ghost use Rattle.ast_json_nodes.specs.code.NodeReading.{StandsAt};
ghost use Rattle.graphql_ast_json.specs.kinds.DocumentJson.{IsAnyDefinition};
ghost use Rattle.graphql_ast_json.specs.lemmas.DocumentNodes.{any_definition_laws};

use crate::ast_json::AstJson;
use ast_json_nodes::error::AstJsonError;
use ast_json_nodes::{JsonNode, NodeReader};
use graphql_ast::ast::Definition;
use graphql_base::node::Node;
use serde_json::Value as Json;
use std::alloc::{AllocError, Global};

impl AstJson for Definition {
    ghost Tree = { DefinitionTree };

    ghost tree = { definition_tree };

    ghost is_json_of = { IsAnyDefinition };

    ghost location = { definition_location };

    ghost stands = { λ definition. StandsAt (definition_location definition) };

    ghost laws = { any_definition_laws };

    fn read_ast_json(node: NodeReader<'_>) -> Result<Definition, AstJsonError> {
        Self::read_json(JsonNode::of(node))
    }

    fn read_json(node: JsonNode<'_, '_>) -> Result<Definition, AstJsonError> {
        let kind = node.text("kind")?;
        match kind {
            "OperationDefinition" => Ok(Self::OperationDefinition(Node::read_json(node)?)),
            "FragmentDefinition" => Ok(Self::FragmentDefinition(Node::read_json(node)?)),
            "DirectiveDefinition" => Ok(Self::DirectiveDefinition(Node::read_json(node)?)),
            "SchemaDefinition" => Ok(Self::SchemaDefinition(Node::read_json(node)?)),
            "ScalarTypeDefinition" => Ok(Self::ScalarTypeDefinition(Node::read_json(node)?)),
            "ObjectTypeDefinition" => Ok(Self::ObjectTypeDefinition(Node::read_json(node)?)),
            "InterfaceTypeDefinition" => Ok(Self::InterfaceTypeDefinition(Node::read_json(node)?)),
            "UnionTypeDefinition" => Ok(Self::UnionTypeDefinition(Node::read_json(node)?)),
            "EnumTypeDefinition" => Ok(Self::EnumTypeDefinition(Node::read_json(node)?)),
            "InputObjectTypeDefinition" => Ok(Self::InputObjectTypeDefinition(Node::read_json(
                node,
            )?)),
            "SchemaExtension" => Ok(Self::SchemaExtension(Node::read_json(node)?)),
            "ScalarTypeExtension" => Ok(Self::ScalarTypeExtension(Node::read_json(node)?)),
            "ObjectTypeExtension" => Ok(Self::ObjectTypeExtension(Node::read_json(node)?)),
            "InterfaceTypeExtension" => Ok(Self::InterfaceTypeExtension(Node::read_json(node)?)),
            "UnionTypeExtension" => Ok(Self::UnionTypeExtension(Node::read_json(node)?)),
            "EnumTypeExtension" => Ok(Self::EnumTypeExtension(Node::read_json(node)?)),
            "InputObjectTypeExtension" => Ok(Self::InputObjectTypeExtension(Node::read_json(
                node,
            )?)),
            _ => Err(node.wrong_kind(kind, "a definition")),
        }
    }

    fn reads_parsed() -> bool {
        true
    }

    fn to_ast_json(&self, alloc: Global) -> Result<Json, AllocError> {
        match self {
            Self::OperationDefinition(node) => node.to_ast_json(alloc),
            Self::FragmentDefinition(node) => node.to_ast_json(alloc),
            Self::DirectiveDefinition(node) => node.to_ast_json(alloc),
            Self::SchemaDefinition(node) => node.to_ast_json(alloc),
            Self::ScalarTypeDefinition(node) => node.to_ast_json(alloc),
            Self::ObjectTypeDefinition(node) => node.to_ast_json(alloc),
            Self::InterfaceTypeDefinition(node) => node.to_ast_json(alloc),
            Self::UnionTypeDefinition(node) => node.to_ast_json(alloc),
            Self::EnumTypeDefinition(node) => node.to_ast_json(alloc),
            Self::InputObjectTypeDefinition(node) => node.to_ast_json(alloc),
            Self::SchemaExtension(node) => node.to_ast_json(alloc),
            Self::ScalarTypeExtension(node) => node.to_ast_json(alloc),
            Self::ObjectTypeExtension(node) => node.to_ast_json(alloc),
            Self::InterfaceTypeExtension(node) => node.to_ast_json(alloc),
            Self::UnionTypeExtension(node) => node.to_ast_json(alloc),
            Self::EnumTypeExtension(node) => node.to_ast_json(alloc),
            Self::InputObjectTypeExtension(node) => node.to_ast_json(alloc),
        }
    }
}
