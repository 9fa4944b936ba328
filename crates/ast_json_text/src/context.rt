//! In what nodes are written.
ghost use Rattle.std.specs.Prelude.{◌≡◌};

use graphql_base::span::SourceSpan;

/// In what a node is written: the source location that it tells, if there is one, and whether the default layout prints it
/// on one line, so that no string in it is a block string.
#[derive(Clone, Copy)]
pub struct NodeContext {
    pub location: Option<SourceSpan>,
    pub is_on_one_line: bool,
}

impl NodeContext {
    /// The context of a node that the default layout prints over lines.
    pub(crate) fn new(location: Option<SourceSpan>) -> NodeContext
        ensures { result.location ≡ location }
    {
        NodeContext {
            location,
            is_on_one_line: false,
        }
    }

    /// The context of a node that the default layout prints on one line.
    pub(crate) fn on_one_line(location: Option<SourceSpan>) -> NodeContext
        ensures { result.location ≡ location }
    {
        NodeContext {
            location,
            is_on_one_line: true,
        }
    }

    /// The context of a node within this one, which is printed on one line if this one is.
    pub(crate) fn inner(self, location: Option<SourceSpan>) -> NodeContext
        ensures { result.location ≡ location }
    {
        NodeContext { location, ..self }
    }
}
