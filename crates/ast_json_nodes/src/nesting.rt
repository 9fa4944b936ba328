//! Steps of the reading of nodes in one another, each in a frame of its own.
//!
//! A value that a caller built may nest as deep as the stack has room for the frames of the functions that call each other. So
//! these do little themselves, and pass on what they call for.
ghost use Rattle.std.specs.Prelude.{◌≡◌, IfOk, IfErr, IsErrAnd, OnOk, Ok, Some, codes};
ghost use Rattle.serde_json.specs.Data.{string};
ghost use Rattle.ast_json_nodes.specs.code.Errors.{IsMemory};
ghost use Rattle.ast_json_nodes.specs.code.JsonNodes.{node_data};
ghost use Rattle.ast_json_nodes.specs.code.NodeReading.{IsInFile, StandsAt, TellsKind};
ghost use Rattle.ast_json_nodes.specs.code.ToldErrors.{IsLocationOr, IsToldFrom};
ghost use Rattle.ast_json_nodes.specs.nodes.Nodes.{IsLocated, member_of};

use crate::error::AstJsonError;
use crate::read::JsonNode;
use graphql_base::span::SourceSpan;

impl<'j, 't> JsonNode<'j, 't> {
    /// Where the node stands, and its kind.
    #[doc(hidden)]
    #[inline(never)]
    pub fn located_kind(self) -> Result<(Option<SourceSpan>, &'j str), AstJsonError>
        ensures located { OnOk result (IsLocated self.entry.unknown (node_data self.entry)) }
        ensures stands { IfOk result (λ found. StandsAt found.0 (node_data self.entry)) }
        ensures file { IfOk result (λ found. IsInFile self.entry.source found.0) }
        ensures kind { IfOk result (λ found.
            member_of (codes "kind") (node_data self.entry) ≡ Some (string found.1.now)) }
        ensures err { IfErr result (λ error. ¬ IsMemory error
            → ¬ TellsKind self.entry.unknown (node_data self.entry)) }
    {
        let location = self.location()?;
        let kind = self.text("kind")?;
        Ok((location, kind))
    }

    /// What was read of the member of this name. An error is told from this node.
    #[doc(hidden)]
    #[inline(never)]
    pub fn told_within<V: Drop>(
        self,
        name: &str,
        read: Result<V, AstJsonError>,
    ) -> Result<V, AstJsonError>
        ensures ok { IfOk result (λ value. read ≡ Ok value) }
        ensures err { IfErr result (λ error. ¬ IsMemory error
            → IsErrAnd read (λ inner. ¬ IsMemory inner)) }
        ensures told { IfErr result (λ error.
            IsErrAnd read (λ inner. IsToldFrom name.now (IsLocationOr self.entry) inner error)) }
    {
        match read {
            Ok(value) => Ok(value),
            Err(error) => Err(self.within(name, error)),
        }
    }
}
