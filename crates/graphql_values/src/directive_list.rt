//! Lists of directives: look-ups by name, and going over them.
ghost use Rattle.std.specs.Prelude.{◌≡◌, ◌==◌, ◌∷◌, ◌++◌, ◌^◌, ◌<◌, [], None, IfOk, IfErr, IfSome, OnOk, OnErr, length, option_copied, position};
ghost use Rattle.std.specs.Borrow.{sem};
ghost use Rattle.std.specs.Iterator.{Drains, IsFinite, YieldsFirstRef, item_count};
ghost use Rattle.std.specs.Iterator.Runs.{EveryRun, ItemsMapTo};
ghost use Rattle.std.specs.Slice.Iter.{iter_rest, iter_mut_rest, iter_steps, iter_mut_steps};
ghost use Rattle.std.specs.Vec.{vec_allocator};
ghost use Rattle.graphql_base.specs.Node.{node_at};
ghost use Rattle.graphql_base.specs.declared.node.Node.{Node};
ghost use Rattle.graphql_values.specs.declared.directive.Directive.{Directive};
ghost use Rattle.graphql_values.specs.code.Loans.{LendsItems, LendsVec};
ghost use Rattle.graphql_values.specs.code.Queries.{all_directives_named, first_directive_named, has_directive_named, is_directive_named, next_directive_named};

pub(crate) mod print;

use crate::directive::Directive;
use graphql_base::node::Node;
use std::alloc::{AllocError, Global};
use std::ops::{Deref, DerefMut};
use std::{slice, vec};

/// Directives in order (`Directives`, section 2.12), or none.
///
/// Of directives with one name each is kept, as GraphQL allows for repeatable ones. Equality and hash ignore source
/// locations.
///
/// ```
/// let mut list = DirectiveList::new(alloc);
/// list.0.push(Node::new(alloc, Directive::new(alloc, name!(deprecated)))?)?; // @deprecated
/// list.has("deprecated") // true
/// ```
#[derive(Clone, PartialEq, Eq, Hash, Debug, Drop)]
pub struct DirectiveList(pub Vec<Node<Directive>>);

impl DirectiveList {
    ghost use Rattle.graphql_values.specs.code.Queries.{directives_left};

    /// The empty list. It takes no memory.
    ///
    /// ```
    /// DirectiveList::new(alloc).is_empty() // true
    /// ```
    pub fn new(alloc: Global) -> DirectiveList
        ensures { result.0.items ≡ [] }
    {
        DirectiveList(Vec::new(alloc))
    }

    /// A list of one directive, in a node without a location. `AllocError` where memory is refused; the directive is
    /// dropped then.
    ///
    /// ```
    /// DirectiveList::of(alloc, Directive::new(alloc, name!(deprecated)))? // @deprecated
    /// ```
    pub fn of(alloc: Global, directive: Directive) -> Result<DirectiveList, AllocError>
        ensures { IfOk result (λ list. list.0.items ≡ node_at None directive ∷ []) }
    {
        Ok(DirectiveList(vec![in alloc; Node::new(alloc, directive)?]?))
    }

    /// The allocator of the list.
    pub fn allocator(&self) -> Global
        ensures { result ≡ vec_allocator self.now.0 }
    {
        *self.0.allocator()
    }

    /// Whether there is no directive.
    pub fn is_empty(&self) -> bool
        ensures { result ≡ (length self.now.0.items == 0) }
    {
        self.0.is_empty()
    }

    /// The directives in order.
    pub fn iter<'l>(&'l self) -> slice::Iter<'l, Node<Directive>>
        ensures { ⟦<&'l DirectiveList as IntoIterator>⟧.into_iter_gives self.entry result }
    {
        self.into_iter()
    }

    /// The first directive of that name.
    pub fn get(&self, name: &str) -> Option<&Node<Directive>>
        ensures { option_copied result ≡ first_directive_named name.now self.now.0.items }
    {
        let index = first_index(&self.0, name)?;
        Some(&self.0[index])
    }

    /// Whether there is a directive of that name.
    pub fn has(&self, name: &str) -> bool
        ensures { result ≡ has_directive_named name.now self.now.0.items }
    {
        self.get(name).is_some()
    }

    /// The directives of that name, in order.
    pub fn get_all<'l, 'n>(&'l self, name: &'n str) -> GetAll<'l, 'n>
        ensures all { directives_left result ≡ all_directives_named name.now self.now.0.items }
        ensures count { length (directives_left result) < 2 ^ 64 }
    {
        GetAll {
            rest: self.0.as_slice(),
            name,
        }
    }

    /// The least index not below `from` of a directive of that name.
    ///
    /// To write to each directive of a name, take the indices in turn, and write to the list at each.
    pub fn next_position(&self, name: &str, from: usize) -> Option<usize>
        ensures { result ≡ next_directive_named name.now from self.now.0.items }
    {
        if from > self.0.len() {
            return None;
        }
        match first_index(&self.0[from..], name) {
            Some(index) => Some(from + index),
            None => None,
        }
    }

    /// Appends a directive. Where memory is refused, the node is handed back and the list is as it was.
    ///
    /// `push` of the vector within returns an error that `?` converts to `AllocError`, and drops the node then.
    ///
    /// ```
    /// list.push(node)    // Err(node) where memory is refused
    /// list.0.push(node)? // AllocError
    /// ```
    pub fn push(&mut self, node: Node<Directive>) -> Result<(), Node<Directive>>
        ensures ok { OnOk result (self.new.0.items ≡ self.old.0.items ++ node ∷ []) }
        ensures err { OnErr result (self.new.0.items ≡ self.old.0.items) }
        ensures handed_back { IfErr result (λ back. back ≡ node) }
    {
        match self.0.push(node) {
            Ok(()) => Ok(()),
            Err(refused) => Err(refused.value),
        }
    }

    /// A list of the items of an iterator that ends, in order. `AllocError` where memory is refused; the items taken
    /// so far are dropped then.
    ///
    /// ```
    /// DirectiveList::collect_from(alloc, list.into_iter())? // the same directives
    /// ```
    pub fn collect_from<I: Iterator<Item = Node<Directive>>>(
        alloc: Global,
        items: I,
    ) -> Result<DirectiveList, AllocError>
        requires can_next { I.can_next items }
        requires ends { IsFinite (I.remaining items) }
        ensures { IfOk result (λ list. Drains I.next_gives items list.0.items) }
    {
        Ok(DirectiveList(items.collect(alloc)?))
    }
}

/// The index of the first directive of that name.
fn first_index(directives: &[Node<Directive>], name: &str) -> Option<usize>
    ensures index { result ≡ position (is_directive_named name.now) directives.now }
    ensures within { IfSome result (λ index. index < length directives.now) }
{
    directives
        .iter()
        .position(|node| node.name.as_str() == name)
}

/// The directives of a list that have one name, in order: what `DirectiveList::get_all` returns.
///
/// After the last one `next` always returns `None`.
///
/// ```
/// for directive in list.get_all("deprecated") {
///     println!(rt; "{directive}")?; // @deprecated
/// }
/// ```
#[derive(Drop)]
pub struct GetAll<'l, 'n> {
    rest: &'l [Node<Directive>],
    name: &'n str,
}

impl<'l> Iterator for GetAll<'l, '_> {
    type Item = &'l Node<Directive>;

    ghost use Rattle.graphql_values.specs.code.Queries.{directives_left};

    ghost next_gives = { YieldsFirstRef directives_left };

    ghost remaining = { item_count directives_left };

    fn next(&mut self) -> Option<&'l Node<Directive>> {
        while let Some((first, others)) = self.rest.split_first() {
            self.rest = others;
            if first.name.as_str() == self.name {
                return Some(first);
            }
        }
        None
    }
}

impl Deref for DirectiveList {
    type Target = Vec<Node<Directive>>;

    ghost deref_gives = { λ list nodes. nodes ≡ list.0 };

    fn deref(&self) -> &Vec<Node<Directive>>
        ensures { result.now ≡ self.now.0 }
    {
        &self.0
    }
}

impl DerefMut for DirectiveList {
    ghost deref_mut_gives = { λ list nodes. nodes ≡ list.0 };

    fn deref_mut(&mut self) -> &mut Vec<Node<Directive>>
        ensures* writes_back { sem 𝓛 (LendsVec self.entry result) }
        ensures nodes { result.now ≡ self.old.0 }
    {
        &mut self.0
    }
}

impl IntoIterator for DirectiveList {
    type Item = Node<Directive>;

    type IntoIter = vec::IntoIter<Node<Directive>>;

    ghost into_iter_gives = { λ list it.
        ⟦<Vec<Node<Directive>> as IntoIterator>⟧.into_iter_gives list.0 it };

    fn into_iter(self) -> vec::IntoIter<Node<Directive>> {
        let DirectiveList(nodes) = self;
        nodes.into_iter()
    }
}

impl<'l> IntoIterator for &'l DirectiveList {
    type Item = &'l Node<Directive>;

    type IntoIter = slice::Iter<'l, Node<Directive>>;

    ghost into_iter_gives = { λ list it.
        (iter_rest it ≡ list.now.0.items) × (length (iter_rest it) < 2 ^ 64)
        × EveryRun (iter_steps {A = Node Directive}) (λ run.
        ItemsMapTo run (λ node. node.now) (iter_rest run.from)) };

    fn into_iter(self) -> slice::Iter<'l, Node<Directive>> {
        self.0.as_slice().iter()
    }
}

impl<'l> IntoIterator for &'l mut DirectiveList {
    type Item = &'l mut Node<Directive>;

    type IntoIter = slice::IterMut<'l, Node<Directive>>;

    ghost into_iter_gives = { λ list it. (iter_mut_rest it ≡ list.now.0.items)
        × (length (iter_mut_rest it) < 2 ^ 64)
        × EveryRun (iter_mut_steps {A = Node Directive}) (λ run.
        ItemsMapTo run (λ node. node.now) (iter_mut_rest run.from)) };

    fn into_iter(self) -> slice::IterMut<'l, Node<Directive>>
        ensures* writes_back { sem 𝓛 (LendsItems self.entry result) }
        ensures into_iter_gives { (iter_mut_rest result ≡ self.old.0.items)
            × (length (iter_mut_rest result) < 2 ^ 64)
            × EveryRun (iter_mut_steps {A = Node Directive}) (λ run.
            ItemsMapTo run (λ node. node.now) (iter_mut_rest run.from)) }
    {
        self.0.as_mut_slice().iter_mut()
    }
}
