//! Directives are printed.
ghost use Rattle.std.specs.Prelude.{◌≡◌, Some};
ghost use Rattle.graphql_text.specs.code.IllFormed.{IsFirstFlaw};
ghost use Rattle.graphql_text.specs.kinds.PrintedKinds.{no_types};
ghost use Rattle.graphql_text.specs.kinds.Printing.{IsDefaultPrint, default_bytes};
ghost use Rattle.graphql_values.specs.trees.DirectiveTrees.{directive_tree};
ghost use Rattle.graphql_values.specs.kinds.Directives.{directive_kind};
ghost use Rattle.graphql_values.specs.lemmas.Directives.{directive_laws};

use crate::argument::print::{
    are_arguments_well_formed, find_arguments_nesting, find_ill_formed_argument, write_arguments,
};
use crate::constness::Constness;
use crate::directive::Directive;
use crate::value::print::ValueEntry;
use graphql_text::engine::{Serialize, Syntax, SyntaxTree};
use graphql_text::ill_formed::IllFormed;
use graphql_text::writers::{
    Depths, Place, Stack, Start, Target, Written, write_name, write_whole, write_words,
};
use std::alloc::AllocError;
use std::fmt;

impl Directive {
    /// The directive in the default layout, for `print_to`, `to_text` or another layout.
    pub fn serialize(&self) -> Serialize<'_, Directive>
        ensures { IsDefaultPrint self.now result }
    {
        Serialize::new(self)
    }

    /// The first enum value in its arguments that is `true`, `false` or `null`. Variables are allowed.
    pub fn find_ill_formed(&self) -> Option<IllFormed<'_>>
        ensures { IsFirstFlaw (directive_kind.flaws (directive_tree self.now)) result }
    {
        find_ill_formed_argument(&self.arguments, Constness::NonConst)
    }

    /// Whether no enum value in its arguments is `true`, `false` or `null`. Variables are allowed.
    pub fn is_well_formed(&self) -> bool
        ensures { result ≡ directive_kind.obeys (directive_tree self.now) }
    {
        are_arguments_well_formed(&self.arguments, Constness::NonConst)
    }
}

impl SyntaxTree for Directive {
    ghost kind = { directive_kind };

    ghost tree = { directive_tree };

    ghost laws = { directive_laws };

    ghost list_depth = { no_types };

    fn find_ill_formed(&self) -> Option<IllFormed<'_>> {
        Directive::find_ill_formed(self)
    }

    fn is_well_formed(&self) -> bool {
        Directive::is_well_formed(self)
    }

    fn find_depths(&self) -> Option<Depths> {
        Some(Depths::without_types(find_arguments_nesting(&self.arguments)?))
    }
}

impl Syntax for Directive {
    fn write<O: Target>(&self, out: &mut O, start: &Start<'_>) -> Result<(), AllocError> {
        write_whole(self, out, start)
    }
}

impl<'t> Written<'t, Stack<ValueEntry<'t>>> for Directive {
    fn reserve(&'t self, depths: Depths) -> Result<Stack<ValueEntry<'t>>, AllocError> {
        Stack::reserve(Some(*self.arguments.allocator()), depths.nesting)
    }

    fn write_at<O: Target>(
        &'t self,
        out: &mut O,
        place: &Place<'_>,
        stack: &mut Stack<ValueEntry<'t>>,
    ) {
        let Directive { name, arguments } = self;
        write_words(out, "@");
        write_name(out, name);
        write_arguments(out, place, stack, arguments);
    }
}

impl fmt::Display for Directive {
    ghost output = { λ directive. Some (default_bytes directive_kind (directive_tree directive)) };

    fn fmt<W: fmt::Write>(&self, f: &mut fmt::Formatter<W>) -> fmt::Result {
        self.serialize().fmt(f)
    }
}
