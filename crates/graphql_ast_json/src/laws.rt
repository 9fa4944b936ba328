//! Laws of AST JSON. Each function does nothing: its contract is the law.
ghost use Rattle.ast_json_nodes.specs.declared.read.Unknown.{Unknown};
ghost use Rattle.ast_json_nodes.specs.nodes.OneTree.{IsNeverNull, IsOfOneTree};

use crate::ast_json::AstJson;

/// A JSON is of one tree at most: no two trees of a kind are written alike. And null is of none. That holds of a reading
/// that refuses what is unknown, and of one that passes over it.
pub fn a_json_is_of_one_tree<T: AstJson>()
    ensures one_tree { (unknown : Unknown) → IsOfOneTree (T.is_json_of unknown) }
    ensures never_null { (unknown : Unknown) → IsNeverNull (T.is_json_of unknown) }
{}
