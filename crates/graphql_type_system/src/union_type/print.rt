//! Union types are printed.
ghost use Rattle.std.specs.Prelude.{◌≡◌, Some};
ghost use Rattle.graphql_text.specs.code.IllFormed.{IsFirstFlaw};
ghost use Rattle.graphql_text.specs.kinds.PrintedKinds.{no_types};
ghost use Rattle.graphql_text.specs.kinds.Printing.{IsDefaultPrint, default_bytes};
ghost use Rattle.graphql_type_system.specs.trees.TypeSystemTrees.{union_type_definition_tree, union_type_extension_tree};
ghost use Rattle.graphql_type_system.specs.kinds.UnionTypes.{union_type, union_type_definition_kind, union_type_extension_kind};
ghost use Rattle.graphql_type_system.specs.lemmas.Kinds.{union_type_definition_laws, union_type_extension_laws};

use crate::joined_names::write_joined_names;
use crate::union_type::{UnionTypeDefinition, UnionTypeExtension};
use graphql_text::engine::{Serialize, Syntax, SyntaxTree};
use graphql_text::ill_formed::{IllFormed, SideCondition};
use graphql_text::writers::{
    Depths, Place, Start, Target, Written, ill_formed_unless, write_leading_description,
    write_name, write_whole, write_words,
};
use graphql_values::writers::{
    Constness, Stacks, are_directives_well_formed, find_ill_formed_directive,
};
use std::alloc::AllocError;
use std::fmt;

impl UnionTypeDefinition {
    /// The definition in the default layout, for `print_to`, `to_text` or another layout.
    pub fn serialize(&self) -> Serialize<'_, UnionTypeDefinition>
        ensures { IsDefaultPrint self.now result }
    {
        Serialize::new(self)
    }

    /// The first enum value in the arguments of its directives that is `true`, `false` or `null`, or variable there.
    pub fn find_ill_formed(&self) -> Option<IllFormed<'_>>
        ensures { IsFirstFlaw
            (union_type_definition_kind.flaws (union_type_definition_tree self.now)) result }
    {
        find_ill_formed_directive(&self.directives, Constness::Const)
    }

    /// Whether no variable stands in the arguments of its directives, and no enum value there is
    /// `true`, `false` or `null`.
    pub fn is_well_formed(&self) -> bool
        ensures { result ≡ union_type_definition_kind.obeys (union_type_definition_tree self.now) }
    {
        are_directives_well_formed(&self.directives, Constness::Const)
    }
}

impl SyntaxTree for UnionTypeDefinition {
    ghost kind = { union_type_definition_kind };

    ghost tree = { union_type_definition_tree };

    ghost laws = { union_type_definition_laws };

    ghost list_depth = { no_types };

    fn find_ill_formed(&self) -> Option<IllFormed<'_>> {
        UnionTypeDefinition::find_ill_formed(self)
    }

    fn is_well_formed(&self) -> bool {
        UnionTypeDefinition::is_well_formed(self)
    }

    fn find_depths(&self) -> Option<Depths> {
        self.directives.find_depths()
    }
}

impl Syntax for UnionTypeDefinition {
    fn write<O: Target>(&self, out: &mut O, start: &Start<'_>) -> Result<(), AllocError> {
        write_whole(self, out, start)
    }
}

impl<'t> Written<'t, Stacks<'t>> for UnionTypeDefinition {
    fn reserve(&'t self, depths: Depths) -> Result<Stacks<'t>, AllocError> {
        Stacks::reserve(self.directives.allocator(), depths)
    }

    fn write_at<O: Target>(&'t self, out: &mut O, place: &Place<'_>, stacks: &mut Stacks<'t>) {
        let UnionTypeDefinition {
            description,
            name,
            directives,
            members,
        } = self;
        write_leading_description(out, place, description.as_ref());
        write_words(out, "union ");
        write_name(out, name);
        directives.write_at(out, place, &mut stacks.values);
        write_joined_names(out, " = ", " | ", members);
    }
}

impl fmt::Display for UnionTypeDefinition {
    ghost output = { λ union_type.
        Some (default_bytes union_type_definition_kind (union_type_definition_tree union_type)) };

    fn fmt<W: fmt::Write>(&self, f: &mut fmt::Formatter<W>) -> fmt::Result {
        self.serialize().fmt(f)
    }
}

impl UnionTypeExtension {
    /// The extension in the default layout, for `print_to`, `to_text` or another layout.
    pub fn serialize(&self) -> Serialize<'_, UnionTypeExtension>
        ensures { IsDefaultPrint self.now result }
    {
        Serialize::new(self)
    }

    /// That it adds nothing, or the first enum value in the arguments of its directives that is `true`, `false` or
    /// `null`, or variable there.
    #[tactic(auto, using(graphql_text::proofs::kinds::FlawsTold::flaw_steps))]
    pub fn find_ill_formed(&self) -> Option<IllFormed<'_>>
        ensures { IsFirstFlaw
            (union_type_extension_kind.flaws (union_type_extension_tree self.now)) result }
    {
        let adds = !self.directives.is_empty() || !self.members.is_empty();
        let found = ill_formed_unless(adds, SideCondition::AddsSomething, Some(&self.name));
        if found.is_some() {
            return found;
        }
        find_ill_formed_directive(&self.directives, Constness::Const)
    }

    /// Whether it adds something, and no variable stands in the arguments of its directives, and no enum value there
    /// is `true`, `false` or `null`.
    pub fn is_well_formed(&self) -> bool
        ensures { result ≡ union_type_extension_kind.obeys (union_type_extension_tree self.now) }
    {
        (!self.directives.is_empty() || !self.members.is_empty())
            && are_directives_well_formed(&self.directives, Constness::Const)
    }
}

impl SyntaxTree for UnionTypeExtension {
    ghost kind = { union_type_extension_kind };

    ghost tree = { union_type_extension_tree };

    ghost laws = { union_type_extension_laws };

    ghost list_depth = { no_types };

    fn find_ill_formed(&self) -> Option<IllFormed<'_>> {
        UnionTypeExtension::find_ill_formed(self)
    }

    fn is_well_formed(&self) -> bool {
        UnionTypeExtension::is_well_formed(self)
    }

    fn find_depths(&self) -> Option<Depths> {
        self.directives.find_depths()
    }
}

impl Syntax for UnionTypeExtension {
    fn write<O: Target>(&self, out: &mut O, start: &Start<'_>) -> Result<(), AllocError> {
        write_whole(self, out, start)
    }
}

impl<'t> Written<'t, Stacks<'t>> for UnionTypeExtension {
    fn reserve(&'t self, depths: Depths) -> Result<Stacks<'t>, AllocError> {
        Stacks::reserve(self.directives.allocator(), depths)
    }

    fn write_at<O: Target>(&'t self, out: &mut O, place: &Place<'_>, stacks: &mut Stacks<'t>) {
        let UnionTypeExtension {
            name,
            directives,
            members,
        } = self;
        write_words(out, "extend union ");
        write_name(out, name);
        directives.write_at(out, place, &mut stacks.values);
        write_joined_names(out, " = ", " | ", members);
    }
}

impl fmt::Display for UnionTypeExtension {
    ghost output = { λ union_type.
        Some (default_bytes union_type_extension_kind (union_type_extension_tree union_type)) };

    fn fmt<W: fmt::Write>(&self, f: &mut fmt::Formatter<W>) -> fmt::Result {
        self.serialize().fmt(f)
    }
}
