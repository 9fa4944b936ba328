//! Selections: what stands between the braces of a selection set.
ghost use Rattle.std.specs.Prelude.{◌≡◌, IfOk, None, Some, option_copied};
ghost use Rattle.std.specs.Borrow.{sem};
ghost use Rattle.graphql_base.specs.Node.{node_at, node_value};
ghost use Rattle.graphql_executable.specs.code.SelectionLoans.{LendsFieldDirectives, LendsInlineFragmentDirectives, LendsSelectionDirectives, LendsSpreadDirectives};
ghost use Rattle.graphql_executable.specs.code.SelectionQueries.{field_of, fragment_spread_of, inline_fragment_of, selection_directives, selection_location, selection_set_of};

pub(crate) mod print;

use crate::field::Field;
use crate::fragment_spread::FragmentSpread;
use crate::inline_fragment::InlineFragment;
use graphql_base::node::Node;
use graphql_base::span::SourceSpan;
use graphql_values::directive_list::DirectiveList;
use std::alloc::{AllocError, Global};

/// A selection (`Selection`, section 2.4).
///
/// Equality and hash ignore source locations.
///
/// ```
/// let selection = Selection::field(alloc, Field::new(alloc, name!(id)))?;
/// if let Some(field) = selection.as_field() {
///     println!(rt; "{}", field.response_name())?; // id
/// }
/// ```
#[cycle(selection)]
#[derive(PartialEq, Eq, Hash, Debug, Drop)]
pub enum Selection {
    /// A field, with what is selected of it.
    Field(Node<Field>),
    /// `...` and the name of a fragment, in whose place its selections stand.
    FragmentSpread(Node<FragmentSpread>),
    /// `...` and a selection set of its own.
    InlineFragment(Node<InlineFragment>),
}

/// The directives of a field, of which this node has a copy of its own then.
fn field_directives_mut(node: &mut Node<Field>) -> Result<&mut DirectiveList, AllocError>
    ensures* writes_back { sem 𝓛 (LendsFieldDirectives node.entry result) }
    ensures directives { IfOk result (λ directives.
        directives.now.0.items ≡ (node_value node.old).directives.0.items) }
{
    Ok(&mut node.make_mut()?.directives)
}

/// The directives of a fragment spread, of which this node has a copy of its own then.
fn spread_directives_mut(node: &mut Node<FragmentSpread>) -> Result<&mut DirectiveList, AllocError>
    ensures* writes_back { sem 𝓛 (LendsSpreadDirectives node.entry result) }
    ensures directives { IfOk result (λ directives.
        directives.now.0.items ≡ (node_value node.old).directives.0.items) }
{
    Ok(&mut node.make_mut()?.directives)
}

/// The directives of an inline fragment, of which this node has a copy of its own then.
fn inline_fragment_directives_mut(
    node: &mut Node<InlineFragment>,
) -> Result<&mut DirectiveList, AllocError>
    ensures* writes_back { sem 𝓛 (LendsInlineFragmentDirectives node.entry result) }
    ensures directives { IfOk result (λ directives.
        directives.now.0.items ≡ (node_value node.old).directives.0.items) }
{
    Ok(&mut node.make_mut()?.directives)
}

impl Selection {
    /// The selection of a field, in a node without a location. `AllocError` where memory is refused; the field is given
    /// up then.
    ///
    /// ```
    /// Selection::field(alloc, Field::new(alloc, name!(id)))? // id
    /// ```
    pub fn field(alloc: Global, field: Field) -> Result<Selection, AllocError>
        ensures { IfOk result (λ selection. field_of selection ≡ Some (node_at None field)) }
    {
        Ok(Selection::Field(Node::new(alloc, field)?))
    }

    /// The selection of a fragment spread, in a node without a location. `AllocError` where memory is refused; the
    /// spread is dropped then.
    ///
    /// ```
    /// Selection::fragment_spread(alloc, FragmentSpread::new(alloc, name!(F)))? // ...F
    /// ```
    pub fn fragment_spread(alloc: Global, spread: FragmentSpread) -> Result<Selection, AllocError>
        ensures { IfOk result
            (λ selection. fragment_spread_of selection ≡ Some (node_at None spread)) }
    {
        Ok(Selection::FragmentSpread(Node::new(alloc, spread)?))
    }

    /// The selection of an inline fragment, in a node without a location. `AllocError` where memory is refused; the
    /// fragment is dropped then.
    ///
    /// ```
    /// Selection::inline_fragment(alloc, fragment)? // ... on T { id }
    /// ```
    pub fn inline_fragment(alloc: Global, fragment: InlineFragment) -> Result<Selection, AllocError>
        ensures { IfOk result
            (λ selection. inline_fragment_of selection ≡ Some (node_at None fragment)) }
    {
        Ok(Selection::InlineFragment(Node::new(alloc, fragment)?))
    }

    /// The source location of the selection.
    pub fn location(&self) -> Option<SourceSpan>
        ensures { result ≡ selection_location self.now }
    {
        match self {
            Selection::Field(field) => field.location(),
            Selection::FragmentSpread(spread) => spread.location(),
            Selection::InlineFragment(fragment) => fragment.location(),
        }
    }

    /// The directives that stand in it.
    ///
    /// ```
    /// selection.directives().has("include") // of id @include(if: $b) true
    /// ```
    pub fn directives(&self) -> &DirectiveList
        ensures { result.now ≡ selection_directives self.now }
    {
        match self {
            Selection::Field(field) => &field.directives,
            Selection::FragmentSpread(spread) => &spread.directives,
            Selection::InlineFragment(fragment) => &fragment.directives,
        }
    }

    /// The directives that stand in it, to write to. Where another node shares the field, spread or fragment, this
    /// selection first takes a copy of its own.
    ///
    /// What is written is seen in this selection alone, and all else in it stays. `AllocError` where the copy is
    /// refused; the selection is as it was then.
    ///
    /// ```
    /// selection.directives_mut()?.0.push(Node::new(alloc, Directive::new(alloc, name!(d)))?)? // id @d
    /// ```
    pub fn directives_mut(&mut self) -> Result<&mut DirectiveList, AllocError>
        ensures* writes_back { sem 𝓛 (LendsSelectionDirectives self.entry result) }
        ensures directives { IfOk result (λ directives.
            directives.now.0.items ≡ (selection_directives self.old).0.items) }
    {
        match self {
            Selection::Field(node) => field_directives_mut(node),
            Selection::FragmentSpread(node) => spread_directives_mut(node),
            Selection::InlineFragment(node) => inline_fragment_directives_mut(node),
        }
    }

    /// The selections within it, in order. `None` exactly for a fragment spread, in which none can stand.
    ///
    /// ```
    /// selection.selection_set() // of a { b c } the two selections b and c; of a none; of ...F None
    /// ```
    pub fn selection_set(&self) -> Option<&[Selection]>
        ensures { option_copied result ≡ selection_set_of self.now }
    {
        match self {
            Selection::Field(field) => Some(field.selection_set.as_slice()),
            Selection::FragmentSpread(_) => None,
            Selection::InlineFragment(fragment) => Some(fragment.selection_set.as_slice()),
        }
    }

    /// The field, if it is one.
    pub fn as_field(&self) -> Option<&Node<Field>>
        ensures { option_copied result ≡ field_of self.now }
    {
        match self {
            Selection::Field(field) => Some(field),
            _ => None,
        }
    }

    /// The fragment spread, if it is one.
    pub fn as_fragment_spread(&self) -> Option<&Node<FragmentSpread>>
        ensures { option_copied result ≡ fragment_spread_of self.now }
    {
        match self {
            Selection::FragmentSpread(spread) => Some(spread),
            _ => None,
        }
    }

    /// The inline fragment, if it is one.
    pub fn as_inline_fragment(&self) -> Option<&Node<InlineFragment>>
        ensures { option_copied result ≡ inline_fragment_of self.now }
    {
        match self {
            Selection::InlineFragment(fragment) => Some(fragment),
            _ => None,
        }
    }
}

impl Clone for Selection {
    ghost is_clone = { λ selection copy. copy ≡ selection };

    fn clone(&self) -> Result<Selection, AllocError> {
        match self {
            Selection::Field(field) => Ok(Selection::Field(field.clone()?)),
            Selection::FragmentSpread(spread) => Ok(Selection::FragmentSpread(spread.clone()?)),
            Selection::InlineFragment(fragment) => Ok(Selection::InlineFragment(fragment.clone()?)),
        }
    }
}
