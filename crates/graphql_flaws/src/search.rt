//! A search for flaws: where in a tree it is, and what it has found.
ghost use Rattle.std.specs.Prelude.{◌≡◌, [], OnOk, option_copied};
ghost use Rattle.std.specs.Option.{option_map};
ghost use Rattle.graphql_text.specs.kinds.Flaws.{flaw_unless};
ghost use Rattle.graphql_text.specs.trees.Leaves.{name_tree};
ghost use Rattle.graphql_flaws.specs.FoundFlaws.{Finds, flaws_of, found_by};

use crate::found_flaw::{FlawPath, FoundFlaw, PathStep};
use graphql_ast::Name;
use graphql_ast::ill_formed::{IllFormed, SideCondition};
use graphql_ast::span::SourceSpan;
use std::alloc::{AllocError, Global};

/// A search for the flaws of a tree that is under way: what it has found, and the part of the tree that it is at.
///
/// `FindFlaws::flaws` makes one, and each kind hands it on to its parts.
///
/// ```
/// fn push_flaws<'a>(&'a self, search: &mut FlawSearch<'a>) -> Result<(), AllocError> {
///     self.field.push_flaws(search) // of a type that is a field, and no more
/// }
/// ```
#[derive(Drop)]
pub struct FlawSearch<'a> {
    found: Vec<FoundFlaw<'a>>,
    /// The path of the part.
    steps: Vec<PathStep>,
    /// The location of the innermost node around it that has one.
    around: Option<SourceSpan>,
}

/// Where a search was before it came to a part.
#[derive(Clone, Copy)]
pub(crate) struct Outer {
    depth: usize,
    around: Option<SourceSpan>,
}

impl<'a> FlawSearch<'a> {
    /// A search at the root, which has found nothing.
    pub(crate) fn new(alloc: Global) -> FlawSearch<'a>
        ensures { found_by result ≡ [] }
    {
        FlawSearch {
            found: Vec::new(alloc),
            steps: Vec::new(alloc),
            around: None,
        }
    }

    /// What it has found.
    pub(crate) fn into_found(self) -> Vec<FoundFlaw<'a>>
        ensures { flaws_of result.items ≡ found_by self.entry }
    {
        let FlawSearch { found, .. } = self;
        found
    }

    /// Goes to a part by these steps, which is a node at this location or none.
    pub(crate) fn enter(
        &mut self,
        steps: &[PathStep],
        location: Option<SourceSpan>,
    ) -> Result<Outer, AllocError>
        ensures { found_by self.new ≡ found_by self.old }
    {
        let outer = Outer {
            depth: self.steps.len(),
            around: self.around,
        };
        self.steps.extend_from_slice(steps)?;
        self.around = location.or(self.around);
        Ok(outer)
    }

    /// Goes back to where it was before it came to a part.
    pub(crate) fn leave(&mut self, outer: Outer)
        ensures { found_by self.new ≡ found_by self.old }
    {
        self.steps.truncate(outer.depth);
        self.around = outer.around;
    }

    /// The path to which these steps lead from here.
    fn path(&self, steps: &[PathStep]) -> Result<FlawPath, AllocError> {
        let mut path = self.steps.clone()?;
        path.extend_from_slice(steps)?;
        Ok(FlawPath { steps: path })
    }

    /// Finds what is ill formed unless a side condition holds, where these steps lead from here.
    pub(crate) fn push_unless(
        &mut self,
        holds: bool,
        condition: SideCondition,
        name: Option<&'a Name>,
        steps: &[PathStep],
    ) -> Result<(), AllocError>
        ensures { OnOk result (Finds (flaw_unless holds condition
            (option_map name_tree (option_copied name.entry))) self.old self.new) }
    {
        if holds {
            return Ok(());
        }
        let path = self.path(steps)?;
        let found = IllFormed {
            condition,
            name,
            around: self.around,
        };
        self.found.push(FoundFlaw { found, path })?;
        Ok(())
    }
}
