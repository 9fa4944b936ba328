//! Lists of directives are printed.
ghost use Rattle.std.specs.Prelude.{◌≡◌, Some};
ghost use Rattle.graphql_text.specs.code.IllFormed.{IsFirstFlaw};
ghost use Rattle.graphql_text.specs.layout.Levels.{IsCount};
ghost use Rattle.graphql_text.specs.kinds.PrintedKinds.{no_types};
ghost use Rattle.graphql_text.specs.kinds.Printing.{IsDefaultPrint, default_bytes};
ghost use Rattle.graphql_text.specs.code.Stack.{CanWrite, IsKept};
ghost use Rattle.graphql_text.specs.code.Writing.{Writes};
ghost use Rattle.graphql_values.specs.trees.DirectiveTrees.{directive_node_trees, directive_trees};
ghost use Rattle.graphql_values.specs.kinds.Directives.{directives_flaws, directives_kind, directives_nesting, directives_obey, directives_shape};
ghost use Rattle.graphql_values.specs.trees.ValueTrees.{constness_of};
ghost use Rattle.graphql_values.specs.lemmas.Directives.{directives_laws};

use crate::argument::print::{
    are_arguments_well_formed, find_arguments_nesting, find_ill_formed_argument,
};
use crate::constness::Constness;
use crate::directive::Directive;
use crate::directive_list::DirectiveList;
use crate::value::print::ValueEntry;
use graphql_base::node::Node;
use graphql_text::engine::{Serialize, Syntax, SyntaxTree};
use graphql_text::ill_formed::IllFormed;
use graphql_text::writers::{
    Depths, Place, Stack, Start, Target, Written, write_whole, write_words,
};
use std::alloc::AllocError;
use std::fmt;

/// Whether the arguments of each directive are well formed in a const context or another.
pub fn are_directives_well_formed(directives: &DirectiveList, constness: Constness) -> bool
    ensures { result ≡ directives_obey (constness_of constness) (directive_trees directives.now) }
{
    let nodes = directives.0.as_slice();
    for directive in nodes {
        if !are_arguments_well_formed(&directive.arguments, constness) {
            return false;
        }
    }
    true
}

/// Where the arguments of the directives aren't well formed in a const context or another.
pub fn find_ill_formed_directive(
    directives: &DirectiveList,
    constness: Constness,
) -> Option<IllFormed<'_>>
    ensures { IsFirstFlaw
        (directives_flaws (constness_of constness) (directive_trees directives.now)) result }
{
    let nodes = directives.0.as_slice();
    for directive in nodes {
        if let Some(found) = find_ill_formed_argument(&directive.arguments, constness) {
            return Some(found.within(directive.location()));
        }
    }
    None
}

/// The nesting depth of the directive that nests most. `None` if it is above `usize::MAX`.
pub fn find_directives_nesting(directives: &DirectiveList) -> Option<usize>
    ensures { IsCount result (directives_nesting (directive_trees directives.now)) }
{
    let nodes = directives.0.as_slice();
    let mut most = 0;
    for directive in nodes {
        most = most.max(find_arguments_nesting(&directive.arguments)?);
    }
    Some(most)
}

/// Writes directives, each after one space.
fn write_directives<'t, O: Target>(
    out: &mut O,
    place: &Place<'_>,
    stack: &mut Stack<ValueEntry<'t>>,
    directives: &'t [Node<Directive>],
)
    requires { CanWrite place.now stack.old
        (directives_nesting (directive_node_trees directives.now)) }
    ensures kept { IsKept stack.old stack.new }
    ensures written { Writes O.wrote out.old out.new place.now
        (directives_shape (directive_node_trees directives.now)) }
{
    for directive in directives {
        if out.is_stopped() {
            return;
        }
        write_words(out, " ");
        directive.write_at(out, place, stack);
    }
}

impl DirectiveList {
    /// The list in the default layout, for `print_to`, `to_text` or another layout. Of the empty list nothing is
    /// printed but the indentation of the first line.
    pub fn serialize(&self) -> Serialize<'_, DirectiveList>
        ensures { IsDefaultPrint self.now result }
    {
        Serialize::new(self)
    }

    /// The first enum value in the arguments of its directives that is `true`, `false` or `null`. Variables are
    /// allowed.
    pub fn find_ill_formed(&self) -> Option<IllFormed<'_>>
        ensures { IsFirstFlaw (directives_kind.flaws (directive_trees self.now)) result }
    {
        find_ill_formed_directive(self, Constness::NonConst)
    }

    /// Whether no enum value in the arguments of its directives is `true`, `false` or `null`. Variables are allowed.
    pub fn is_well_formed(&self) -> bool
        ensures { result ≡ directives_kind.obeys (directive_trees self.now) }
    {
        are_directives_well_formed(self, Constness::NonConst)
    }
}

impl SyntaxTree for DirectiveList {
    ghost kind = { directives_kind };

    ghost tree = { directive_trees };

    ghost laws = { directives_laws };

    ghost list_depth = { no_types };

    fn find_ill_formed(&self) -> Option<IllFormed<'_>> {
        DirectiveList::find_ill_formed(self)
    }

    fn is_well_formed(&self) -> bool {
        DirectiveList::is_well_formed(self)
    }

    fn find_depths(&self) -> Option<Depths> {
        Some(Depths::without_types(find_directives_nesting(self)?))
    }
}

impl Syntax for DirectiveList {
    fn write<O: Target>(&self, out: &mut O, start: &Start<'_>) -> Result<(), AllocError> {
        write_whole(self, out, start)
    }
}

impl<'t> Written<'t, Stack<ValueEntry<'t>>> for DirectiveList {
    fn reserve(&'t self, depths: Depths) -> Result<Stack<ValueEntry<'t>>, AllocError> {
        Stack::reserve(Some(self.allocator()), depths.nesting)
    }

    #[inline(always)]
    fn write_at<O: Target>(
        &'t self,
        out: &mut O,
        place: &Place<'_>,
        stack: &mut Stack<ValueEntry<'t>>,
    ) {
        let DirectiveList(nodes) = self;
        write_directives(out, place, stack, nodes);
    }
}

impl fmt::Display for DirectiveList {
    ghost output = { λ list. Some (default_bytes directives_kind (directive_trees list)) };

    fn fmt<W: fmt::Write>(&self, f: &mut fmt::Formatter<W>) -> fmt::Result {
        self.serialize().fmt(f)
    }
}
