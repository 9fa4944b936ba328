//! Schemas are printed.
ghost use Rattle.std.specs.Prelude.{◌≡◌, Some};
ghost use Rattle.graphql_text.specs.code.IllFormed.{IsFirstFlaw};
ghost use Rattle.graphql_text.specs.kinds.PrintedKinds.{no_types};
ghost use Rattle.graphql_text.specs.kinds.Printing.{IsDefaultPrint, default_bytes};
ghost use Rattle.graphql_type_system.specs.kinds.Schemas.{schema_definition_kind, schema_extension_kind};
ghost use Rattle.graphql_type_system.specs.trees.TypeSystemTrees.{schema_definition_tree, schema_extension_tree};
ghost use Rattle.graphql_type_system.specs.lemmas.Kinds.{schema_definition_laws, schema_extension_laws};

use crate::members::{write_directives_and_members, write_required_members};
use crate::root_operation::root_operations_nesting;
use crate::schema::{SchemaDefinition, SchemaExtension};
use graphql_text::engine::{Serialize, Syntax, SyntaxTree};
use graphql_text::ill_formed::{IllFormed, SideCondition};
use graphql_text::writers::{
    Depths, Place, Start, Target, Written, ill_formed_unless, write_leading_description,
    write_whole, write_words,
};
use graphql_values::writers::{
    Constness, Stacks, are_directives_well_formed, find_directives_nesting,
    find_ill_formed_directive,
};
use std::alloc::AllocError;
use std::fmt;

impl SchemaDefinition {
    /// The definition in the default layout, for `print_to`, `to_text` or another layout.
    pub fn serialize(&self) -> Serialize<'_, SchemaDefinition>
        ensures { IsDefaultPrint self.now result }
    {
        Serialize::new(self)
    }

    /// The first enum value in the arguments of its directives that is `true`, `false` or `null`, or variable there; or
    /// else that there is no root operation.
    #[tactic(auto, using(graphql_text::proofs::kinds::FlawsTold::flaw_steps))]
    pub fn find_ill_formed(&self) -> Option<IllFormed<'_>>
        ensures { IsFirstFlaw
            (schema_definition_kind.flaws (schema_definition_tree self.now)) result }
    {
        let found = find_ill_formed_directive(&self.directives, Constness::Const);
        if found.is_some() {
            return found;
        }
        let has_root = !self.root_operations.is_empty();
        ill_formed_unless(has_root, SideCondition::HasRootOperation, None)
    }

    /// Whether there is a root operation, no variable stands in the arguments of its directives, and no
    /// enum value there is `true`, `false` or `null`.
    pub fn is_well_formed(&self) -> bool
        ensures { result ≡ schema_definition_kind.obeys (schema_definition_tree self.now) }
    {
        !self.root_operations.is_empty()
            && are_directives_well_formed(&self.directives, Constness::Const)
    }
}

impl SyntaxTree for SchemaDefinition {
    ghost kind = { schema_definition_kind };

    ghost tree = { schema_definition_tree };

    ghost laws = { schema_definition_laws };

    ghost list_depth = { no_types };

    fn find_ill_formed(&self) -> Option<IllFormed<'_>> {
        SchemaDefinition::find_ill_formed(self)
    }

    fn is_well_formed(&self) -> bool {
        SchemaDefinition::is_well_formed(self)
    }

    fn find_depths(&self) -> Option<Depths> {
        let directives = find_directives_nesting(&self.directives)?;
        let root_operations = root_operations_nesting(&self.root_operations);
        Some(Depths::without_types(directives.max(root_operations)))
    }
}

impl Syntax for SchemaDefinition {
    fn write<O: Target>(&self, out: &mut O, start: &Start<'_>) -> Result<(), AllocError> {
        write_whole(self, out, start)
    }
}

impl<'t> Written<'t, Stacks<'t>> for SchemaDefinition {
    fn reserve(&'t self, depths: Depths) -> Result<Stacks<'t>, AllocError> {
        Stacks::reserve(self.directives.allocator(), depths)
    }

    fn write_at<O: Target>(&'t self, out: &mut O, place: &Place<'_>, stacks: &mut Stacks<'t>) {
        let SchemaDefinition {
            description,
            directives,
            root_operations,
        } = self;
        write_leading_description(out, place, description.as_ref());
        write_words(out, "schema");
        directives.write_at(out, place, &mut stacks.values);
        write_required_members(out, place, stacks, root_operations);
    }
}

impl fmt::Display for SchemaDefinition {
    ghost output = { λ schema.
        Some (default_bytes schema_definition_kind (schema_definition_tree schema)) };

    fn fmt<W: fmt::Write>(&self, f: &mut fmt::Formatter<W>) -> fmt::Result {
        self.serialize().fmt(f)
    }
}

impl SchemaExtension {
    /// The extension in the default layout, for `print_to`, `to_text` or another layout.
    pub fn serialize(&self) -> Serialize<'_, SchemaExtension>
        ensures { IsDefaultPrint self.now result }
    {
        Serialize::new(self)
    }

    /// That it adds nothing, or the first enum value in the arguments of its directives that is `true`, `false` or
    /// `null`, or variable there.
    #[tactic(auto, using(graphql_text::proofs::kinds::FlawsTold::flaw_steps))]
    pub fn find_ill_formed(&self) -> Option<IllFormed<'_>>
        ensures { IsFirstFlaw
            (schema_extension_kind.flaws (schema_extension_tree self.now)) result }
    {
        let adds = !self.directives.is_empty() || !self.root_operations.is_empty();
        let found = ill_formed_unless(adds, SideCondition::AddsSomething, None);
        if found.is_some() {
            return found;
        }
        find_ill_formed_directive(&self.directives, Constness::Const)
    }

    /// Whether it adds something, and no variable stands in the arguments of its directives, and no enum value there
    /// is `true`, `false` or `null`.
    pub fn is_well_formed(&self) -> bool
        ensures { result ≡ schema_extension_kind.obeys (schema_extension_tree self.now) }
    {
        (!self.directives.is_empty() || !self.root_operations.is_empty())
            && are_directives_well_formed(&self.directives, Constness::Const)
    }
}

impl SyntaxTree for SchemaExtension {
    ghost kind = { schema_extension_kind };

    ghost tree = { schema_extension_tree };

    ghost laws = { schema_extension_laws };

    ghost list_depth = { no_types };

    fn find_ill_formed(&self) -> Option<IllFormed<'_>> {
        SchemaExtension::find_ill_formed(self)
    }

    fn is_well_formed(&self) -> bool {
        SchemaExtension::is_well_formed(self)
    }

    fn find_depths(&self) -> Option<Depths> {
        let directives = find_directives_nesting(&self.directives)?;
        let root_operations = root_operations_nesting(&self.root_operations);
        Some(Depths::without_types(directives.max(root_operations)))
    }
}

impl Syntax for SchemaExtension {
    fn write<O: Target>(&self, out: &mut O, start: &Start<'_>) -> Result<(), AllocError> {
        write_whole(self, out, start)
    }
}

impl<'t> Written<'t, Stacks<'t>> for SchemaExtension {
    fn reserve(&'t self, depths: Depths) -> Result<Stacks<'t>, AllocError> {
        Stacks::reserve(self.directives.allocator(), depths)
    }

    fn write_at<O: Target>(&'t self, out: &mut O, place: &Place<'_>, stacks: &mut Stacks<'t>) {
        let SchemaExtension {
            directives,
            root_operations,
        } = self;
        write_words(out, "extend schema");
        write_directives_and_members(out, place, stacks, directives, root_operations);
    }
}

impl fmt::Display for SchemaExtension {
    ghost output = { λ schema.
        Some (default_bytes schema_extension_kind (schema_extension_tree schema)) };

    fn fmt<W: fmt::Write>(&self, f: &mut fmt::Formatter<W>) -> fmt::Result {
        self.serialize().fmt(f)
    }
}
