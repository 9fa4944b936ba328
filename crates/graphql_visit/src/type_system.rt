//! Walks over the definitions and extensions of the type system.
ghost use Rattle.graphql_base.specs.Node.{node_value};
ghost use Rattle.graphql_values.specs.kinds.DirectiveDefinitions.{directive_definition_kind};
ghost use Rattle.graphql_values.specs.trees.DefinitionTrees.{directive_definition_tree};
ghost use Rattle.graphql_type_system.specs.kinds.EnumTypes.{enum_type_definition_kind, enum_type_extension_kind};
ghost use Rattle.graphql_type_system.specs.kinds.EnumValueDefinitions.{enum_value_definition_kind};
ghost use Rattle.graphql_type_system.specs.kinds.FieldDefinitions.{field_definition_kind};
ghost use Rattle.graphql_type_system.specs.kinds.InputObjectTypes.{input_object_type_definition_kind, input_object_type_extension_kind};
ghost use Rattle.graphql_type_system.specs.kinds.InterfaceTypes.{interface_type_definition_kind, interface_type_extension_kind};
ghost use Rattle.graphql_type_system.specs.kinds.ObjectTypes.{object_type_definition_kind, object_type_extension_kind};
ghost use Rattle.graphql_type_system.specs.kinds.ScalarTypes.{scalar_type_definition_kind, scalar_type_extension_kind};
ghost use Rattle.graphql_type_system.specs.kinds.Schemas.{RootOperationTree, schema_definition_kind, schema_extension_kind};
ghost use Rattle.graphql_type_system.specs.kinds.UnionTypes.{union_type_definition_kind, union_type_extension_kind};
ghost use Rattle.graphql_type_system.specs.trees.TypeSystemTrees.{enum_type_definition_tree, enum_type_extension_tree, enum_value_definition_tree, field_definition_tree, input_object_type_definition_tree, input_object_type_extension_tree, interface_type_definition_tree, interface_type_extension_tree, object_type_definition_tree, object_type_extension_tree, root_operation_tree, scalar_type_definition_tree, scalar_type_extension_tree, schema_definition_tree, schema_extension_tree, union_type_definition_tree, union_type_extension_tree};
ghost use Rattle.graphql_ast.specs.Definitions as name;
ghost use Rattle.graphql_visit.specs.kinds.Documents.{definition_named};
ghost use Rattle.graphql_visit.specs.kinds.TypeSystem.{enum_value_definition_visited, field_definition_visited, root_operation_visited};

use crate::node_ref::NodeRef;
use crate::visitor::{Ended, Visitor};
use crate::walked::{Walked, walk, walk_all};
use graphql_ast::Node;
use graphql_ast::ast::{
    DirectiveDefinition, EnumTypeDefinition, EnumTypeExtension, EnumValueDefinition,
    FieldDefinition, InputObjectTypeDefinition, InputObjectTypeExtension, InterfaceTypeDefinition,
    InterfaceTypeExtension, NamedType, ObjectTypeDefinition, ObjectTypeExtension, OperationType,
    ScalarTypeDefinition, ScalarTypeExtension, SchemaDefinition, SchemaExtension,
    UnionTypeDefinition, UnionTypeExtension,
};

impl Walked for Node<FieldDefinition> {
    ghost Tree = { field_definition_kind.Tree };

    ghost tree = { λ node. field_definition_tree (node_value node) };

    ghost visited = { field_definition_visited };

    fn node_ref(&self) -> NodeRef<'_> {
        NodeRef::FieldDefinition(self)
    }

    #[tactic(auto, using(crate::proofs::Steps::walk_steps))]
    fn walk_within<V: Visitor>(&self, visitor: &mut V) -> Result<(), Ended<V::Error>> {
        walk_all(&self.arguments, visitor)?;
        walk(&self.ty, visitor)?;
        walk_all(&self.directives.0, visitor)
    }
}

impl Walked for Node<EnumValueDefinition> {
    ghost Tree = { enum_value_definition_kind.Tree };

    ghost tree = { λ node. enum_value_definition_tree (node_value node) };

    ghost visited = { enum_value_definition_visited };

    fn node_ref(&self) -> NodeRef<'_> {
        NodeRef::EnumValueDefinition(self)
    }

    #[tactic(auto, using(crate::proofs::Steps::walk_steps))]
    fn walk_within<V: Visitor>(&self, visitor: &mut V) -> Result<(), Ended<V::Error>> {
        walk_all(&self.directives.0, visitor)
    }
}

impl Walked for Node<(OperationType, NamedType)> {
    ghost Tree = { RootOperationTree };

    ghost tree = { λ node. root_operation_tree (node_value node) };

    ghost visited = { root_operation_visited };

    fn node_ref(&self) -> NodeRef<'_> {
        NodeRef::RootOperation(self)
    }

    #[tactic(auto, using(crate::proofs::Steps::walk_steps))]
    fn walk_within<V: Visitor>(&self, _visitor: &mut V) -> Result<(), Ended<V::Error>> {
        Ok(())
    }
}

impl Walked for Node<DirectiveDefinition> {
    ghost Tree = { directive_definition_kind.Tree };

    ghost tree = { λ node. directive_definition_tree (node_value node) };

    ghost visited = { definition_named name.DirectiveDefinition };

    fn node_ref(&self) -> NodeRef<'_> {
        NodeRef::DirectiveDefinition(self)
    }

    #[tactic(auto, using(crate::proofs::Steps::walk_steps))]
    fn walk_within<V: Visitor>(&self, visitor: &mut V) -> Result<(), Ended<V::Error>> {
        walk_all(&self.arguments, visitor)
    }
}

impl Walked for Node<SchemaDefinition> {
    ghost Tree = { schema_definition_kind.Tree };

    ghost tree = { λ node. schema_definition_tree (node_value node) };

    ghost visited = { definition_named name.SchemaDefinition };

    fn node_ref(&self) -> NodeRef<'_> {
        NodeRef::SchemaDefinition(self)
    }

    #[tactic(auto, using(crate::proofs::Steps::walk_steps))]
    fn walk_within<V: Visitor>(&self, visitor: &mut V) -> Result<(), Ended<V::Error>> {
        walk_all(&self.directives.0, visitor)?;
        walk_all(&self.root_operations, visitor)
    }
}

impl Walked for Node<ScalarTypeDefinition> {
    ghost Tree = { scalar_type_definition_kind.Tree };

    ghost tree = { λ node. scalar_type_definition_tree (node_value node) };

    ghost visited = { definition_named name.ScalarTypeDefinition };

    fn node_ref(&self) -> NodeRef<'_> {
        NodeRef::ScalarTypeDefinition(self)
    }

    #[tactic(auto, using(crate::proofs::Steps::walk_steps))]
    fn walk_within<V: Visitor>(&self, visitor: &mut V) -> Result<(), Ended<V::Error>> {
        walk_all(&self.directives.0, visitor)
    }
}

impl Walked for Node<ObjectTypeDefinition> {
    ghost Tree = { object_type_definition_kind.Tree };

    ghost tree = { λ node. object_type_definition_tree (node_value node) };

    ghost visited = { definition_named name.ObjectTypeDefinition };

    fn node_ref(&self) -> NodeRef<'_> {
        NodeRef::ObjectTypeDefinition(self)
    }

    #[tactic(auto, using(crate::proofs::Steps::walk_steps))]
    fn walk_within<V: Visitor>(&self, visitor: &mut V) -> Result<(), Ended<V::Error>> {
        walk_all(&self.directives.0, visitor)?;
        walk_all(&self.fields, visitor)
    }
}

impl Walked for Node<InterfaceTypeDefinition> {
    ghost Tree = { interface_type_definition_kind.Tree };

    ghost tree = { λ node. interface_type_definition_tree (node_value node) };

    ghost visited = { definition_named name.InterfaceTypeDefinition };

    fn node_ref(&self) -> NodeRef<'_> {
        NodeRef::InterfaceTypeDefinition(self)
    }

    #[tactic(auto, using(crate::proofs::Steps::walk_steps))]
    fn walk_within<V: Visitor>(&self, visitor: &mut V) -> Result<(), Ended<V::Error>> {
        walk_all(&self.directives.0, visitor)?;
        walk_all(&self.fields, visitor)
    }
}

impl Walked for Node<UnionTypeDefinition> {
    ghost Tree = { union_type_definition_kind.Tree };

    ghost tree = { λ node. union_type_definition_tree (node_value node) };

    ghost visited = { definition_named name.UnionTypeDefinition };

    fn node_ref(&self) -> NodeRef<'_> {
        NodeRef::UnionTypeDefinition(self)
    }

    #[tactic(auto, using(crate::proofs::Steps::walk_steps))]
    fn walk_within<V: Visitor>(&self, visitor: &mut V) -> Result<(), Ended<V::Error>> {
        walk_all(&self.directives.0, visitor)
    }
}

impl Walked for Node<EnumTypeDefinition> {
    ghost Tree = { enum_type_definition_kind.Tree };

    ghost tree = { λ node. enum_type_definition_tree (node_value node) };

    ghost visited = { definition_named name.EnumTypeDefinition };

    fn node_ref(&self) -> NodeRef<'_> {
        NodeRef::EnumTypeDefinition(self)
    }

    #[tactic(auto, using(crate::proofs::Steps::walk_steps))]
    fn walk_within<V: Visitor>(&self, visitor: &mut V) -> Result<(), Ended<V::Error>> {
        walk_all(&self.directives.0, visitor)?;
        walk_all(&self.values, visitor)
    }
}

impl Walked for Node<InputObjectTypeDefinition> {
    ghost Tree = { input_object_type_definition_kind.Tree };

    ghost tree = { λ node. input_object_type_definition_tree (node_value node) };

    ghost visited = { definition_named name.InputObjectTypeDefinition };

    fn node_ref(&self) -> NodeRef<'_> {
        NodeRef::InputObjectTypeDefinition(self)
    }

    #[tactic(auto, using(crate::proofs::Steps::walk_steps))]
    fn walk_within<V: Visitor>(&self, visitor: &mut V) -> Result<(), Ended<V::Error>> {
        walk_all(&self.directives.0, visitor)?;
        walk_all(&self.fields, visitor)
    }
}

impl Walked for Node<SchemaExtension> {
    ghost Tree = { schema_extension_kind.Tree };

    ghost tree = { λ node. schema_extension_tree (node_value node) };

    ghost visited = { definition_named name.SchemaExtension };

    fn node_ref(&self) -> NodeRef<'_> {
        NodeRef::SchemaExtension(self)
    }

    #[tactic(auto, using(crate::proofs::Steps::walk_steps))]
    fn walk_within<V: Visitor>(&self, visitor: &mut V) -> Result<(), Ended<V::Error>> {
        walk_all(&self.directives.0, visitor)?;
        walk_all(&self.root_operations, visitor)
    }
}

impl Walked for Node<ScalarTypeExtension> {
    ghost Tree = { scalar_type_extension_kind.Tree };

    ghost tree = { λ node. scalar_type_extension_tree (node_value node) };

    ghost visited = { definition_named name.ScalarTypeExtension };

    fn node_ref(&self) -> NodeRef<'_> {
        NodeRef::ScalarTypeExtension(self)
    }

    #[tactic(auto, using(crate::proofs::Steps::walk_steps))]
    fn walk_within<V: Visitor>(&self, visitor: &mut V) -> Result<(), Ended<V::Error>> {
        walk_all(&self.directives.0, visitor)
    }
}

impl Walked for Node<ObjectTypeExtension> {
    ghost Tree = { object_type_extension_kind.Tree };

    ghost tree = { λ node. object_type_extension_tree (node_value node) };

    ghost visited = { definition_named name.ObjectTypeExtension };

    fn node_ref(&self) -> NodeRef<'_> {
        NodeRef::ObjectTypeExtension(self)
    }

    #[tactic(auto, using(crate::proofs::Steps::walk_steps))]
    fn walk_within<V: Visitor>(&self, visitor: &mut V) -> Result<(), Ended<V::Error>> {
        walk_all(&self.directives.0, visitor)?;
        walk_all(&self.fields, visitor)
    }
}

impl Walked for Node<InterfaceTypeExtension> {
    ghost Tree = { interface_type_extension_kind.Tree };

    ghost tree = { λ node. interface_type_extension_tree (node_value node) };

    ghost visited = { definition_named name.InterfaceTypeExtension };

    fn node_ref(&self) -> NodeRef<'_> {
        NodeRef::InterfaceTypeExtension(self)
    }

    #[tactic(auto, using(crate::proofs::Steps::walk_steps))]
    fn walk_within<V: Visitor>(&self, visitor: &mut V) -> Result<(), Ended<V::Error>> {
        walk_all(&self.directives.0, visitor)?;
        walk_all(&self.fields, visitor)
    }
}

impl Walked for Node<UnionTypeExtension> {
    ghost Tree = { union_type_extension_kind.Tree };

    ghost tree = { λ node. union_type_extension_tree (node_value node) };

    ghost visited = { definition_named name.UnionTypeExtension };

    fn node_ref(&self) -> NodeRef<'_> {
        NodeRef::UnionTypeExtension(self)
    }

    #[tactic(auto, using(crate::proofs::Steps::walk_steps))]
    fn walk_within<V: Visitor>(&self, visitor: &mut V) -> Result<(), Ended<V::Error>> {
        walk_all(&self.directives.0, visitor)
    }
}

impl Walked for Node<EnumTypeExtension> {
    ghost Tree = { enum_type_extension_kind.Tree };

    ghost tree = { λ node. enum_type_extension_tree (node_value node) };

    ghost visited = { definition_named name.EnumTypeExtension };

    fn node_ref(&self) -> NodeRef<'_> {
        NodeRef::EnumTypeExtension(self)
    }

    #[tactic(auto, using(crate::proofs::Steps::walk_steps))]
    fn walk_within<V: Visitor>(&self, visitor: &mut V) -> Result<(), Ended<V::Error>> {
        walk_all(&self.directives.0, visitor)?;
        walk_all(&self.values, visitor)
    }
}

impl Walked for Node<InputObjectTypeExtension> {
    ghost Tree = { input_object_type_extension_kind.Tree };

    ghost tree = { λ node. input_object_type_extension_tree (node_value node) };

    ghost visited = { definition_named name.InputObjectTypeExtension };

    fn node_ref(&self) -> NodeRef<'_> {
        NodeRef::InputObjectTypeExtension(self)
    }

    #[tactic(auto, using(crate::proofs::Steps::walk_steps))]
    fn walk_within<V: Visitor>(&self, visitor: &mut V) -> Result<(), Ended<V::Error>> {
        walk_all(&self.directives.0, visitor)?;
        walk_all(&self.fields, visitor)
    }
}
