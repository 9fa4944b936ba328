//! What can be written as the text of its AST JSON.
ghost use Rattle.std.specs.Prelude.{IfOk, OnErr, OnOk, string_bytes};
ghost use Rattle.graphql_text.specs.code.Sinks.{CanFault, SinkFaulted, SinkTook};
ghost use Rattle.graphql_text.specs.code.Writing.{WritesSome};
ghost use Rattle.ast_json_nodes.specs.code.NodeReading.{StandsAt};
ghost use Rattle.ast_json_nodes.specs.declared.read.Unknown.{Unknown};
ghost use Rattle.json_text.specs.Texts.{WritesJson};
ghost use Rattle.ast_json_text.specs.AstJsonTexts.{IsAstJsonText, IsValueText};

use crate::context::NodeContext;
use graphql_ast_json::{AstJson, AstNode};
use graphql_base::node::Node;
use graphql_text::engine::{WriteText, send_text, text_of};
use graphql_text::sink::{SinkFault, TextSink};
use graphql_text::writers::Target;
use std::alloc::{AllocError, Global};

/// What can be written as the text of its AST JSON: documents, definitions, and all that stands in them.
///
/// ```
/// fn json_text<T: WriteAstJson>(alloc: Global, tree: &T) -> Result<String, AllocError> {
///     to_ast_json_text(alloc, tree)
/// }
/// ```
pub trait WriteAstJson: AstJson {
    /// Writes the text of the JSON that the tree is written as: its members stand in the order of their names, without
    /// white space.
    fn write_ast_json<O: Target>(&self, out: &mut O)
        ensures { WritesJson O.wrote out.old out.new (λ json.
            ((unknown : Unknown) → Self.is_json_of unknown (Self.tree self.now) json)
            × Self.stands self.now json) };
}

/// A kind of which each tree is written as one node.
pub trait WriteAstNode: AstNode {
    /// Writes the tree as a node.
    fn write_ast_node<O: Target>(&self, out: &mut O, context: NodeContext)
        ensures { WritesJson O.wrote out.old out.new (λ json.
            ((unknown : Unknown) → Self.is_node unknown (Self.tree self.now) json)
            × StandsAt context.location json) };
}

impl<T: WriteAstNode> WriteAstJson for T {
    fn write_ast_json<O: Target>(&self, out: &mut O) {
        self.write_ast_node(out, NodeContext::new(None));
    }
}

impl<T: WriteAstNode + Drop> WriteAstJson for Node<T> {
    /// The node, at its location if it has one.
    fn write_ast_json<O: Target>(&self, out: &mut O) {
        self.as_ref()
            .write_ast_node(out, NodeContext::new(self.location()));
    }
}

/// A tree, to be written as the text of its AST JSON: to a text in memory by `text_of`, to a sink by `send_text`.
///
/// ```
/// let value = value!(in alloc; 4)?;
/// text_of(alloc, &AsAstJson { tree: &value })? // {"kind":"IntValue","value":"4"}
/// ```
#[derive_where(Clone, Copy)]
pub struct AsAstJson<'a, T> {
    pub tree: &'a T,
}

impl<'a, T: WriteAstJson> WriteText for AsAstJson<'a, T> {
    ghost is_text = { λ written. IsAstJsonText T.is_json_of (T.stands written.tree.now)
        (T.tree written.tree.now) };

    fn write_text<O: Target>(&self, out: &mut O) {
        self.tree.write_ast_json(out);
    }
}

/// The text of the JSON that the tree is written as: that of the value that `to_ast_json` gives, without white space. It
/// asks for the memory of the text alone; `AllocError` where that is refused.
///
/// ```
/// let value = value!(in alloc; 4)?;
/// to_ast_json_text(alloc, &value)? // {"kind":"IntValue","value":"4"}
/// ```
pub fn to_ast_json_text<T: WriteAstJson>(alloc: Global, tree: &T) -> Result<String, AllocError>
    ensures text { IfOk result (λ text. IsAstJsonText T.is_json_of (T.stands tree.now)
        (T.tree tree.now) (string_bytes text)) }
{
    text_of(alloc, &AsAstJson { tree })
}

/// Sends that text to a sink, with no memory but a buffer on the stack. `Ok`: the sink has taken all of it. `SinkFault` at
/// the sink's first fault, after a beginning of the text.
///
/// Condition: `sink.faults()` is below `u64::MAX`.
///
/// ```
/// let mut sink = VecSink::new(alloc);
/// send_ast_json(&value, &mut sink)?;
/// sink.bytes() // {"kind":"IntValue","value":"4"}
/// ```
pub fn send_ast_json<T: WriteAstJson, S: TextSink>(tree: &T, sink: &mut S) -> Result<(), SinkFault>
    requires { CanFault (S.fault_count sink.old) }
    ensures sent { OnOk result (WritesSome (SinkTook S.taken S.fault_count) sink.old
        (IsAstJsonText T.is_json_of (T.stands tree.now) (T.tree tree.now)) sink.new) }
    ensures stopped { OnErr result (WritesSome (SinkFaulted S.taken S.fault_count) sink.old
        (IsAstJsonText T.is_json_of (T.stands tree.now) (T.tree tree.now)) sink.new) }
{
    send_text(&AsAstJson { tree }, sink)
}

/// The text of the JSON of a tree of any kind that has `to_ast_json`, of another crate too: of the value that gives, which
/// is made first, and is memory of its own. `AllocError` where memory is refused.
///
/// ```
/// let value = value!(in alloc; 4)?;
/// to_ast_json_text_by_value(alloc, &value)? // {"kind":"IntValue","value":"4"}
/// ```
pub fn to_ast_json_text_by_value<T: AstJson>(alloc: Global, tree: &T) -> Result<String, AllocError>
    ensures text { IfOk result (λ text. IsValueText T.is_json_of (T.stands tree.now)
        (T.tree tree.now) (string_bytes text)) }
{
    let json = tree.to_ast_json(alloc)?;
    let text = json.to_string(alloc)?;
    Ok(text)
}
