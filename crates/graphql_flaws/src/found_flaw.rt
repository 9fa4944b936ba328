//! A flaw that was found in a tree, and its path.
use graphql_ast::ill_formed::IllFormed;
use std::error::Error;
use std::fmt::{self, Display, Formatter, Write};

/// A step of a path: from a node to one of its members, or from a list to one of its items.
///
/// ```
/// let steps = [PathStep::Member("values"), PathStep::Item(1)]; // of `values[1]`
/// ```
#[derive(Clone, Copy, Debug, PartialEq, Eq)]
pub enum PathStep {
    /// A member, by its name in AST JSON.
    Member(&'static str),
    /// An item, by its index.
    Item(usize),
}

/// Where in a tree a flaw is, as a path within its AST JSON: `definitions[0].values[1].name.value`.
///
/// It leads to what is told of the side condition: to a node, as to a variable or an extension, to a selection set without
/// a selection, or to the text of a name. The tree itself is the path without steps. `Display` writes the names between
/// backquotes, and `the root` where there is none, as `JsonPath` of `graphql_ast_json` does.
///
/// ```
/// for flaw in &enumeration.flaws(alloc)? {
///     println!(rt; "{}", flaw.path)?; // `values[1].name.value`
/// }
/// ```
#[derive(Debug, Drop)]
pub struct FlawPath {
    /// The steps, from the tree inwards.
    pub steps: Vec<PathStep>,
}

impl Display for FlawPath {
    fn fmt<W: Write>(&self, f: &mut Formatter<W>) -> fmt::Result {
        if self.steps.is_empty() {
            return f.write_str("the root");
        }
        f.write_str("`")?;
        let mut separator = "";
        for step in &self.steps {
            match step {
                PathStep::Member(name) => write!(f, "{separator}{name}")?,
                PathStep::Item(index) => write!(f, "[{index}]")?,
            }
            separator = ".";
        }
        f.write_str("`")
    }
}

/// A flaw of a tree, and where it was found.
///
/// `Display` tells it in one line.
///
/// ```
/// for flaw in &document.flaws(alloc)? {
///     println!(rt; "{flaw}")?; // at `definitions[0].values[1].name.value`: a reserved enum value: `true`
/// }
/// ```
#[derive(Debug, Drop)]
pub struct FoundFlaw<'a> {
    /// The side condition that is broken, the name that breaks it or that of what breaks it, and the location around it.
    pub found: IllFormed<'a>,
    /// Where it is in the tree.
    pub path: FlawPath,
}

impl Display for FoundFlaw<'_> {
    fn fmt<W: Write>(&self, f: &mut Formatter<W>) -> fmt::Result {
        write!(f, "at {}: {}", self.path, self.found)
    }
}

impl Error for FoundFlaw<'_> {}
