//! The definitions and extensions of the type system are rebuilt.
ghost use Rattle.graphql_values.specs.kinds.DirectiveDefinitions.{directive_definition_kind};
ghost use Rattle.graphql_values.specs.trees.DefinitionTrees.{directive_definition_tree};
ghost use Rattle.graphql_type_system.specs.kinds.EnumTypes.{enum_type_definition_kind, enum_type_extension_kind};
ghost use Rattle.graphql_type_system.specs.kinds.EnumValueDefinitions.{enum_value_definition_kind};
ghost use Rattle.graphql_type_system.specs.kinds.FieldDefinitions.{field_definition_kind};
ghost use Rattle.graphql_type_system.specs.kinds.InputObjectTypes.{input_object_type_definition_kind, input_object_type_extension_kind};
ghost use Rattle.graphql_type_system.specs.kinds.InterfaceTypes.{interface_type_definition_kind, interface_type_extension_kind};
ghost use Rattle.graphql_type_system.specs.kinds.ObjectTypes.{object_type_definition_kind, object_type_extension_kind};
ghost use Rattle.graphql_type_system.specs.kinds.ScalarTypes.{scalar_type_definition_kind, scalar_type_extension_kind};
ghost use Rattle.graphql_type_system.specs.kinds.Schemas.{schema_definition_kind, schema_extension_kind};
ghost use Rattle.graphql_type_system.specs.kinds.UnionTypes.{union_type_definition_kind, union_type_extension_kind};
ghost use Rattle.graphql_type_system.specs.trees.TypeSystemTrees.{enum_type_definition_tree, enum_type_extension_tree, enum_value_definition_tree, field_definition_tree, input_object_type_definition_tree, input_object_type_extension_tree, interface_type_definition_tree, interface_type_extension_tree, object_type_definition_tree, object_type_extension_tree, scalar_type_definition_tree, scalar_type_extension_tree, schema_definition_tree, schema_extension_tree, union_type_definition_tree, union_type_extension_tree};
ghost use Rattle.graphql_rewrite.specs.kinds.TypeSystem.{rewritten_braced_type, rewritten_directive_definition, rewritten_enum_value_definition, rewritten_field_definition, rewritten_implementing_type, rewritten_scalar_type, rewritten_schema, rewritten_union_type};
ghost use Rattle.graphql_rewrite.specs.kinds.Values.{rewritten_input_value_definition, with_body};

use crate::parts::or_copy;
use crate::rebuild::{Rebuild, rebuild_nodes};
use crate::rewriter::{Rebuilt, Rewriter};
use crate::values::rebuild_directives;
use graphql_ast::ast::{
    DirectiveDefinition, EnumTypeDefinition, EnumTypeExtension, EnumValueDefinition,
    FieldDefinition, InputObjectTypeDefinition, InputObjectTypeExtension, InterfaceTypeDefinition,
    InterfaceTypeExtension, ObjectTypeDefinition, ObjectTypeExtension, ScalarTypeDefinition,
    ScalarTypeExtension, SchemaDefinition, SchemaExtension, UnionTypeDefinition,
    UnionTypeExtension,
};
use std::alloc::Global;

impl Rebuild for FieldDefinition {
    ghost Tree = { field_definition_kind.Tree };

    ghost tree = { field_definition_tree };

    ghost rewritten = { rewritten_field_definition };

    #[tactic(auto, using(graphql_values::proofs::kinds::WrappingLaws::clone_tree))]
    fn rebuild<R: Rewriter>(&self, alloc: Global, rewriter: &R) -> Rebuilt<FieldDefinition> {
        let arguments = rebuild_nodes(alloc, rewriter, &self.arguments)?;
        let directives = rebuild_directives(alloc, rewriter, &self.directives)?;
        if arguments.is_none() && directives.is_none() {
            return Ok(None);
        }
        Ok(Some(FieldDefinition {
            description: self.description.clone()?,
            name: self.name.clone()?,
            arguments: or_copy(arguments, &self.arguments)?,
            ty: self.ty.clone()?,
            directives: or_copy(directives, &self.directives)?,
        }))
    }
}

impl Rebuild for EnumValueDefinition {
    ghost Tree = { enum_value_definition_kind.Tree };

    ghost tree = { enum_value_definition_tree };

    ghost rewritten = { rewritten_enum_value_definition };

    fn rebuild<R: Rewriter>(&self, alloc: Global, rewriter: &R) -> Rebuilt<EnumValueDefinition> {
        match rebuild_directives(alloc, rewriter, &self.directives)? {
            Some(directives) => Ok(Some(EnumValueDefinition {
                directives,
                ..self.clone()?
            })),
            None => Ok(None),
        }
    }
}

impl Rebuild for DirectiveDefinition {
    ghost Tree = { directive_definition_kind.Tree };

    ghost tree = { directive_definition_tree };

    ghost rewritten = { rewritten_directive_definition };

    fn rebuild<R: Rewriter>(&self, alloc: Global, rewriter: &R) -> Rebuilt<DirectiveDefinition> {
        match rebuild_nodes(alloc, rewriter, &self.arguments)? {
            Some(arguments) => Ok(Some(DirectiveDefinition {
                arguments,
                ..self.clone()?
            })),
            None => Ok(None),
        }
    }
}

impl Rebuild for SchemaDefinition {
    ghost Tree = { schema_definition_kind.Tree };

    ghost tree = { schema_definition_tree };

    ghost rewritten = { λ f. with_body (rewritten_schema f) };

    fn rebuild<R: Rewriter>(&self, alloc: Global, rewriter: &R) -> Rebuilt<SchemaDefinition> {
        match rebuild_directives(alloc, rewriter, &self.directives)? {
            Some(directives) => Ok(Some(SchemaDefinition {
                directives,
                ..self.clone()?
            })),
            None => Ok(None),
        }
    }
}

impl Rebuild for ScalarTypeDefinition {
    ghost Tree = { scalar_type_definition_kind.Tree };

    ghost tree = { scalar_type_definition_tree };

    ghost rewritten = { λ f. with_body (rewritten_scalar_type f) };

    fn rebuild<R: Rewriter>(&self, alloc: Global, rewriter: &R) -> Rebuilt<ScalarTypeDefinition> {
        match rebuild_directives(alloc, rewriter, &self.directives)? {
            Some(directives) => Ok(Some(ScalarTypeDefinition {
                directives,
                ..self.clone()?
            })),
            None => Ok(None),
        }
    }
}

impl Rebuild for ObjectTypeDefinition {
    ghost Tree = { object_type_definition_kind.Tree };

    ghost tree = { object_type_definition_tree };

    ghost rewritten = { λ f. with_body (rewritten_implementing_type f) };

    fn rebuild<R: Rewriter>(&self, alloc: Global, rewriter: &R) -> Rebuilt<ObjectTypeDefinition> {
        let directives = rebuild_directives(alloc, rewriter, &self.directives)?;
        let fields = rebuild_nodes(alloc, rewriter, &self.fields)?;
        if directives.is_none() && fields.is_none() {
            return Ok(None);
        }
        Ok(Some(ObjectTypeDefinition {
            description: self.description.clone()?,
            name: self.name.clone()?,
            implements_interfaces: self.implements_interfaces.clone()?,
            directives: or_copy(directives, &self.directives)?,
            fields: or_copy(fields, &self.fields)?,
        }))
    }
}

impl Rebuild for InterfaceTypeDefinition {
    ghost Tree = { interface_type_definition_kind.Tree };

    ghost tree = { interface_type_definition_tree };

    ghost rewritten = { λ f. with_body (rewritten_implementing_type f) };

    fn rebuild<R: Rewriter>(
        &self,
        alloc: Global,
        rewriter: &R,
    ) -> Rebuilt<InterfaceTypeDefinition> {
        let directives = rebuild_directives(alloc, rewriter, &self.directives)?;
        let fields = rebuild_nodes(alloc, rewriter, &self.fields)?;
        if directives.is_none() && fields.is_none() {
            return Ok(None);
        }
        Ok(Some(InterfaceTypeDefinition {
            description: self.description.clone()?,
            name: self.name.clone()?,
            implements_interfaces: self.implements_interfaces.clone()?,
            directives: or_copy(directives, &self.directives)?,
            fields: or_copy(fields, &self.fields)?,
        }))
    }
}

impl Rebuild for UnionTypeDefinition {
    ghost Tree = { union_type_definition_kind.Tree };

    ghost tree = { union_type_definition_tree };

    ghost rewritten = { λ f. with_body (rewritten_union_type f) };

    fn rebuild<R: Rewriter>(&self, alloc: Global, rewriter: &R) -> Rebuilt<UnionTypeDefinition> {
        match rebuild_directives(alloc, rewriter, &self.directives)? {
            Some(directives) => Ok(Some(UnionTypeDefinition {
                directives,
                ..self.clone()?
            })),
            None => Ok(None),
        }
    }
}

impl Rebuild for EnumTypeDefinition {
    ghost Tree = { enum_type_definition_kind.Tree };

    ghost tree = { enum_type_definition_tree };

    ghost rewritten = { λ f.
        with_body (rewritten_braced_type f (rewritten_enum_value_definition f)) };

    fn rebuild<R: Rewriter>(&self, alloc: Global, rewriter: &R) -> Rebuilt<EnumTypeDefinition> {
        let directives = rebuild_directives(alloc, rewriter, &self.directives)?;
        let values = rebuild_nodes(alloc, rewriter, &self.values)?;
        if directives.is_none() && values.is_none() {
            return Ok(None);
        }
        Ok(Some(EnumTypeDefinition {
            description: self.description.clone()?,
            name: self.name.clone()?,
            directives: or_copy(directives, &self.directives)?,
            values: or_copy(values, &self.values)?,
        }))
    }
}

impl Rebuild for InputObjectTypeDefinition {
    ghost Tree = { input_object_type_definition_kind.Tree };

    ghost tree = { input_object_type_definition_tree };

    ghost rewritten = { λ f.
        with_body (rewritten_braced_type f (rewritten_input_value_definition f)) };

    fn rebuild<R: Rewriter>(
        &self,
        alloc: Global,
        rewriter: &R,
    ) -> Rebuilt<InputObjectTypeDefinition> {
        let directives = rebuild_directives(alloc, rewriter, &self.directives)?;
        let fields = rebuild_nodes(alloc, rewriter, &self.fields)?;
        if directives.is_none() && fields.is_none() {
            return Ok(None);
        }
        Ok(Some(InputObjectTypeDefinition {
            description: self.description.clone()?,
            name: self.name.clone()?,
            directives: or_copy(directives, &self.directives)?,
            fields: or_copy(fields, &self.fields)?,
        }))
    }
}

impl Rebuild for SchemaExtension {
    ghost Tree = { schema_extension_kind.Tree };

    ghost tree = { schema_extension_tree };

    ghost rewritten = { rewritten_schema };

    fn rebuild<R: Rewriter>(&self, alloc: Global, rewriter: &R) -> Rebuilt<SchemaExtension> {
        match rebuild_directives(alloc, rewriter, &self.directives)? {
            Some(directives) => Ok(Some(SchemaExtension {
                directives,
                ..self.clone()?
            })),
            None => Ok(None),
        }
    }
}

impl Rebuild for ScalarTypeExtension {
    ghost Tree = { scalar_type_extension_kind.Tree };

    ghost tree = { scalar_type_extension_tree };

    ghost rewritten = { rewritten_scalar_type };

    fn rebuild<R: Rewriter>(&self, alloc: Global, rewriter: &R) -> Rebuilt<ScalarTypeExtension> {
        match rebuild_directives(alloc, rewriter, &self.directives)? {
            Some(directives) => Ok(Some(ScalarTypeExtension {
                directives,
                ..self.clone()?
            })),
            None => Ok(None),
        }
    }
}

impl Rebuild for ObjectTypeExtension {
    ghost Tree = { object_type_extension_kind.Tree };

    ghost tree = { object_type_extension_tree };

    ghost rewritten = { rewritten_implementing_type };

    fn rebuild<R: Rewriter>(&self, alloc: Global, rewriter: &R) -> Rebuilt<ObjectTypeExtension> {
        let directives = rebuild_directives(alloc, rewriter, &self.directives)?;
        let fields = rebuild_nodes(alloc, rewriter, &self.fields)?;
        if directives.is_none() && fields.is_none() {
            return Ok(None);
        }
        Ok(Some(ObjectTypeExtension {
            name: self.name.clone()?,
            implements_interfaces: self.implements_interfaces.clone()?,
            directives: or_copy(directives, &self.directives)?,
            fields: or_copy(fields, &self.fields)?,
        }))
    }
}

impl Rebuild for InterfaceTypeExtension {
    ghost Tree = { interface_type_extension_kind.Tree };

    ghost tree = { interface_type_extension_tree };

    ghost rewritten = { rewritten_implementing_type };

    fn rebuild<R: Rewriter>(&self, alloc: Global, rewriter: &R) -> Rebuilt<InterfaceTypeExtension> {
        let directives = rebuild_directives(alloc, rewriter, &self.directives)?;
        let fields = rebuild_nodes(alloc, rewriter, &self.fields)?;
        if directives.is_none() && fields.is_none() {
            return Ok(None);
        }
        Ok(Some(InterfaceTypeExtension {
            name: self.name.clone()?,
            implements_interfaces: self.implements_interfaces.clone()?,
            directives: or_copy(directives, &self.directives)?,
            fields: or_copy(fields, &self.fields)?,
        }))
    }
}

impl Rebuild for UnionTypeExtension {
    ghost Tree = { union_type_extension_kind.Tree };

    ghost tree = { union_type_extension_tree };

    ghost rewritten = { rewritten_union_type };

    fn rebuild<R: Rewriter>(&self, alloc: Global, rewriter: &R) -> Rebuilt<UnionTypeExtension> {
        match rebuild_directives(alloc, rewriter, &self.directives)? {
            Some(directives) => Ok(Some(UnionTypeExtension {
                directives,
                ..self.clone()?
            })),
            None => Ok(None),
        }
    }
}

impl Rebuild for EnumTypeExtension {
    ghost Tree = { enum_type_extension_kind.Tree };

    ghost tree = { enum_type_extension_tree };

    ghost rewritten = { λ f. rewritten_braced_type f (rewritten_enum_value_definition f) };

    fn rebuild<R: Rewriter>(&self, alloc: Global, rewriter: &R) -> Rebuilt<EnumTypeExtension> {
        let directives = rebuild_directives(alloc, rewriter, &self.directives)?;
        let values = rebuild_nodes(alloc, rewriter, &self.values)?;
        if directives.is_none() && values.is_none() {
            return Ok(None);
        }
        Ok(Some(EnumTypeExtension {
            name: self.name.clone()?,
            directives: or_copy(directives, &self.directives)?,
            values: or_copy(values, &self.values)?,
        }))
    }
}

impl Rebuild for InputObjectTypeExtension {
    ghost Tree = { input_object_type_extension_kind.Tree };

    ghost tree = { input_object_type_extension_tree };

    ghost rewritten = { λ f. rewritten_braced_type f (rewritten_input_value_definition f) };

    fn rebuild<R: Rewriter>(
        &self,
        alloc: Global,
        rewriter: &R,
    ) -> Rebuilt<InputObjectTypeExtension> {
        let directives = rebuild_directives(alloc, rewriter, &self.directives)?;
        let fields = rebuild_nodes(alloc, rewriter, &self.fields)?;
        if directives.is_none() && fields.is_none() {
            return Ok(None);
        }
        Ok(Some(InputObjectTypeExtension {
            name: self.name.clone()?,
            directives: or_copy(directives, &self.directives)?,
            fields: or_copy(fields, &self.fields)?,
        }))
    }
}
