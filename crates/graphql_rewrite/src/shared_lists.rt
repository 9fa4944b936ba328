//! Lists that are made of others, and share with them what stays.
ghost use Rattle.std.specs.Prelude.{◌≡◌, ◌<◌, ◌≤◌, ◌++◌, ◌∷◌, [], IfOk, get_or, length, take, ◌+◌, unwrap_or};
ghost use Rattle.graphql_rewrite.specs.Outcomes.{outcome_items};

use crate::rewriter::Rebuilt;
use graphql_ast::ast::{Definition, Selection};
use graphql_ast::{Name, Node};
use std::alloc::{AllocError, Global};

/// What two lists may share.
pub(crate) trait Shared: Sized {
    /// The same, shared with this one.
    fn share(&self) -> Result<Self, AllocError>
        ensures { IfOk result (λ copy. copy ≡ self.now) };
}

impl<T: Drop> Shared for Node<T> {
    fn share(&self) -> Result<Node<T>, AllocError> {
        self.clone()
    }
}

impl<T: Drop> Shared for (Name, Node<T>) {
    fn share(&self) -> Result<(Name, Node<T>), AllocError> {
        Ok((self.0.clone()?, self.1.clone()?))
    }
}

/// A list of the first items of another one, with room for so many.
pub(crate) fn begin<X: Shared + Drop>(
    alloc: Global,
    items: &[X],
    count: usize,
    room: usize,
) -> Result<Vec<X>, AllocError>
    requires { count ≤ length items.now }
    ensures { IfOk result (λ made. made.items ≡ take count items.now) }
{
    let mut made = Vec::with_capacity(alloc, room)?;
    for item in &items[..count] {
        made.push(item.share()?)?;
    }
    Ok(made)
}

/// What was made so far, and one more item.
pub(crate) fn keep<X: Shared + Drop>(
    alloc: Global,
    made: Option<Vec<X>>,
    items: &[X],
    index: usize,
    item: Option<X>,
) -> Rebuilt<Vec<X>>
    requires { index < length items.now }
    ensures { IfOk result (λ more. (x : X) → x ≡ get_or items.now index x →
        outcome_items (take (index + 1) items.now) more
        ≡ outcome_items (take index items.now) made ++ unwrap_or item x ∷ []) }
{
    match (made, item) {
        (None, None) => Ok(None),
        (None, Some(item)) => {
            let mut made = begin(alloc, items, index, items.len())?;
            made.push(item)?;
            Ok(Some(made))
        }
        (Some(mut made), None) => {
            made.push(items[index].share()?)?;
            Ok(Some(made))
        }
        (Some(mut made), Some(item)) => {
            made.push(item)?;
            Ok(Some(made))
        }
    }
}

impl Shared for Selection {
    fn share(&self) -> Result<Selection, AllocError> {
        self.clone()
    }
}

impl Shared for Definition {
    fn share(&self) -> Result<Definition, AllocError> {
        self.clone()
    }
}
