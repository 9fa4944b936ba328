//! The flaws of the definitions and extensions of the type system.
ghost use Rattle.std.specs.Prelude.{◌≡◌};
ghost use Rattle.graphql_values.specs.kinds.InputValueDefinitions.{input_value_definition_kind};
ghost use Rattle.graphql_type_system.specs.kinds.BracedTypes.{braced_type_adds};
ghost use Rattle.graphql_type_system.specs.trees.TypeSystemTrees.{input_object_type_extension_tree};

use crate::find_flaws::FindFlaws;
use crate::parts::{NAME_TEXT, push_nodes};
use crate::search::FlawSearch;
use crate::values::push_directives;
use graphql_ast::ast::{
    EnumTypeDefinition, EnumTypeExtension, EnumValueDefinition, FieldDefinition,
    InputObjectTypeDefinition, InputObjectTypeExtension, InterfaceTypeDefinition,
    InterfaceTypeExtension, ObjectTypeDefinition, ObjectTypeExtension, ScalarTypeDefinition,
    ScalarTypeExtension, SchemaDefinition, SchemaExtension, UnionTypeDefinition,
    UnionTypeExtension,
};
use graphql_ast::ill_formed::SideCondition::{AddsSomething, HasRootOperation, IsNotReserved};
use graphql_values::writers::{Constness, is_enum_name};
use std::alloc::AllocError;

impl FindFlaws for FieldDefinition {
    fn push_flaws<'a>(&'a self, search: &mut FlawSearch<'a>) -> Result<(), AllocError> {
        push_nodes(search, "arguments", &self.arguments)?;
        push_directives(search, &self.directives, Constness::Const)
    }
}

impl FindFlaws for EnumValueDefinition {
    fn push_flaws<'a>(&'a self, search: &mut FlawSearch<'a>) -> Result<(), AllocError> {
        let is_free = is_enum_name(self.value.as_str());
        let value = Some(&self.value);
        search.push_unless(is_free, IsNotReserved, value, &NAME_TEXT)?;
        push_directives(search, &self.directives, Constness::Const)
    }
}

impl FindFlaws for SchemaDefinition {
    fn push_flaws<'a>(&'a self, search: &mut FlawSearch<'a>) -> Result<(), AllocError> {
        push_directives(search, &self.directives, Constness::Const)?;
        let has_root = !self.root_operations.is_empty();
        search.push_unless(has_root, HasRootOperation, None, &[])
    }
}

impl FindFlaws for ScalarTypeDefinition {
    fn push_flaws<'a>(&'a self, search: &mut FlawSearch<'a>) -> Result<(), AllocError> {
        push_directives(search, &self.directives, Constness::Const)
    }
}

impl FindFlaws for ObjectTypeDefinition {
    fn push_flaws<'a>(&'a self, search: &mut FlawSearch<'a>) -> Result<(), AllocError> {
        push_directives(search, &self.directives, Constness::Const)?;
        push_nodes(search, "fields", &self.fields)
    }
}

impl FindFlaws for InterfaceTypeDefinition {
    fn push_flaws<'a>(&'a self, search: &mut FlawSearch<'a>) -> Result<(), AllocError> {
        push_directives(search, &self.directives, Constness::Const)?;
        push_nodes(search, "fields", &self.fields)
    }
}

impl FindFlaws for UnionTypeDefinition {
    fn push_flaws<'a>(&'a self, search: &mut FlawSearch<'a>) -> Result<(), AllocError> {
        push_directives(search, &self.directives, Constness::Const)
    }
}

impl FindFlaws for EnumTypeDefinition {
    fn push_flaws<'a>(&'a self, search: &mut FlawSearch<'a>) -> Result<(), AllocError> {
        push_directives(search, &self.directives, Constness::Const)?;
        push_nodes(search, "values", &self.values)
    }
}

impl FindFlaws for InputObjectTypeDefinition {
    fn push_flaws<'a>(&'a self, search: &mut FlawSearch<'a>) -> Result<(), AllocError> {
        push_directives(search, &self.directives, Constness::Const)?;
        push_nodes(search, "fields", &self.fields)
    }
}

impl FindFlaws for SchemaExtension {
    fn push_flaws<'a>(&'a self, search: &mut FlawSearch<'a>) -> Result<(), AllocError> {
        let adds = !self.directives.is_empty() || !self.root_operations.is_empty();
        search.push_unless(adds, AddsSomething, None, &[])?;
        push_directives(search, &self.directives, Constness::Const)
    }
}

impl FindFlaws for ScalarTypeExtension {
    fn push_flaws<'a>(&'a self, search: &mut FlawSearch<'a>) -> Result<(), AllocError> {
        let adds = !self.directives.is_empty();
        search.push_unless(adds, AddsSomething, Some(&self.name), &[])?;
        push_directives(search, &self.directives, Constness::Const)
    }
}

impl FindFlaws for ObjectTypeExtension {
    fn push_flaws<'a>(&'a self, search: &mut FlawSearch<'a>) -> Result<(), AllocError> {
        let adds = !self.implements_interfaces.is_empty()
            || !self.directives.is_empty()
            || !self.fields.is_empty();
        search.push_unless(adds, AddsSomething, Some(&self.name), &[])?;
        push_directives(search, &self.directives, Constness::Const)?;
        push_nodes(search, "fields", &self.fields)
    }
}

impl FindFlaws for InterfaceTypeExtension {
    fn push_flaws<'a>(&'a self, search: &mut FlawSearch<'a>) -> Result<(), AllocError> {
        let adds = !self.implements_interfaces.is_empty()
            || !self.directives.is_empty()
            || !self.fields.is_empty();
        search.push_unless(adds, AddsSomething, Some(&self.name), &[])?;
        push_directives(search, &self.directives, Constness::Const)?;
        push_nodes(search, "fields", &self.fields)
    }
}

impl FindFlaws for UnionTypeExtension {
    fn push_flaws<'a>(&'a self, search: &mut FlawSearch<'a>) -> Result<(), AllocError> {
        let adds = !self.directives.is_empty() || !self.members.is_empty();
        search.push_unless(adds, AddsSomething, Some(&self.name), &[])?;
        push_directives(search, &self.directives, Constness::Const)
    }
}

impl FindFlaws for EnumTypeExtension {
    fn push_flaws<'a>(&'a self, search: &mut FlawSearch<'a>) -> Result<(), AllocError> {
        let adds = !self.directives.is_empty() || !self.values.is_empty();
        search.push_unless(adds, AddsSomething, Some(&self.name), &[])?;
        push_directives(search, &self.directives, Constness::Const)?;
        push_nodes(search, "values", &self.values)
    }
}

/// Whether an extension adds something.
fn adds_something(extension: &InputObjectTypeExtension) -> bool
    ensures { result ≡ braced_type_adds input_value_definition_kind
        (input_object_type_extension_tree extension.now) }
{
    !extension.directives.is_empty() || !extension.fields.is_empty()
}

impl FindFlaws for InputObjectTypeExtension {
    fn push_flaws<'a>(&'a self, search: &mut FlawSearch<'a>) -> Result<(), AllocError> {
        let adds = adds_something(self);
        search.push_unless(adds, AddsSomething, Some(&self.name), &[])?;
        push_directives(search, &self.directives, Constness::Const)?;
        push_nodes(search, "fields", &self.fields)
    }
}
