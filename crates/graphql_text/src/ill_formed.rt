//! Why a tree isn't well formed.
ghost use Rattle.std.specs.Prelude.{◌≡◌, option_copied};
ghost use Rattle.std.specs.Option.{option_map, option_or};
ghost use Rattle.graphql_text.specs.code.IllFormed.{flaw_of, found_flaw, location_of};
ghost use Rattle.graphql_text.specs.kinds.Flaws.{first_flaw, flaw_unless};
ghost use Rattle.graphql_text.specs.trees.Leaves.{name_tree};

use graphql_base::name::Name;
use graphql_base::span::SourceSpan;
use std::error::Error;
use std::fmt::{self, Display, Formatter, Write};

/// A side condition of the grammar, which the types of the tree don't rule out by themselves.
///
/// A tree that breaks it has a text that is no syntax of GraphQL, or is read as another tree. `Display` tells what is
/// wrong where it is broken.
///
/// ```
/// let spread = FragmentSpread::new(alloc, name!(on));
/// spread.find_ill_formed()?.condition // SideCondition::IsNotOn
/// ```
#[derive(Clone, Copy, Debug, PartialEq, Eq, Hash)]
pub enum SideCondition {
    /// A document has a definition.
    HasDefinition,
    /// An operation, a fragment and an inline fragment have a selection.
    HasSelection,
    /// No fragment is named `on`, where it is defined and where it is spread.
    IsNotOn,
    /// No enum value is `true`, `false` or `null`, where it is defined and where it is used.
    IsNotReserved,
    /// No variable stands in a const context: in a default value, or in a directive of a definition that is no
    /// operation and no fragment.
    IsConstant,
    /// A directive definition has a location.
    HasLocation,
    /// A schema definition has a root operation.
    HasRootOperation,
    /// An extension adds something.
    AddsSomething,
}

impl Display for SideCondition {
    fn fmt<W: Write>(&self, f: &mut Formatter<W>) -> fmt::Result {
        f.write_str(match self {
            SideCondition::HasDefinition => "a document without a definition",
            SideCondition::HasSelection => "an empty selection set",
            SideCondition::IsNotOn => "a fragment named `on`",
            SideCondition::IsNotReserved => "a reserved enum value",
            SideCondition::IsConstant => "a variable where only constants may stand",
            SideCondition::HasLocation => "a directive definition without a location",
            SideCondition::HasRootOperation => "a schema definition without a root operation",
            SideCondition::AddsSomething => "an extension that adds nothing",
        })
    }
}

/// Where a tree isn't well formed: the first flaw in the order of print.
///
/// `Display` tells it in one line.
///
/// ```
/// let extension = UnionTypeExtension::new(alloc, name!(A));
/// if let Some(flaw) = extension.find_ill_formed() {
///     println!(rt; "{flaw}")?; // an extension that adds nothing: `A`
/// }
/// ```
#[derive(Clone, Copy, Debug)]
pub struct IllFormed<'a> {
    /// The side condition that is broken.
    pub condition: SideCondition,
    /// The name that breaks it, or else that of what breaks it, if it has one.
    pub name: Option<&'a Name>,
    /// The location of the innermost node around it that has one.
    pub around: Option<SourceSpan>,
}

impl<'a> IllFormed<'a> {
    /// The location of the name, or else that of the innermost node around it that has one.
    pub fn location(&self) -> Option<SourceSpan>
        ensures { result ≡ location_of self.now }
    {
        match self.name {
            Some(name) => name.location().or(self.around),
            None => self.around,
        }
    }

    /// The same, as found in a node at this location: nodes are left from the inside out.
    #[inline(never)]
    pub fn within(self, location: Option<SourceSpan>) -> IllFormed<'a>
        ensures flaw { flaw_of result ≡ flaw_of self.entry }
        ensures around { result.around ≡ option_or self.entry.around location }
    {
        IllFormed {
            around: self.around.or(location),
            ..self
        }
    }
}

impl Display for IllFormed<'_> {
    fn fmt<W: Write>(&self, f: &mut Formatter<W>) -> fmt::Result {
        match self.name {
            Some(name) => write!(f, "{}: `{name}`", self.condition),
            None => write!(f, "{}", self.condition),
        }
    }
}

impl Error for IllFormed<'_> {}

/// What is ill formed unless a side condition holds.
#[inline(always)]
pub fn ill_formed_unless<'a>(
    holds: bool,
    condition: SideCondition,
    name: Option<&'a Name>,
) -> Option<IllFormed<'a>>
    ensures { found_flaw result ≡ first_flaw
        (flaw_unless holds condition (option_map name_tree (option_copied name.entry))) }
{
    if holds {
        None
    } else {
        Some(IllFormed {
            condition,
            name,
            around: None,
        })
    }
}
