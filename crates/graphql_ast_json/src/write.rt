//! Nodes are written: objects with a kind, perhaps a location, and members.
ghost use Rattle.std.specs.Prelude.{◌≡◌, ◌∷◌, [], IfOk, IsSomeAnd, OnErr, OnOk, None, Some, codes, false, if◌then◌else◌, map, option_map, true};
ghost use Rattle.serde_json.specs.Data.{boolean, object, string, put as with_member};
ghost use Rattle.serde_json.specs.Find.{as_array, get};
ghost use Rattle.serde_json.specs.View.{view};
ghost use Rattle.graphql_base.specs.Node.{node_value};
ghost use Rattle.graphql_text.specs.grammar.Forms.{is_one_of};
ghost use Rattle.graphql_values.specs.trees.DirectiveTrees.{directive_trees};
ghost use Rattle.graphql_values.specs.trees.ValueTrees.{value_tree};
ghost use Rattle.graphql_ast_json.specs.code.Drafts.{IsArrayOf, IsBegun, IsGiven, IsLocationJson, beginning, location_of, members_so_far, put_optional, written};
ghost use Rattle.ast_json_nodes.specs.code.NodeReading.{IsTextNode, StandsAt};
ghost use Rattle.ast_json_nodes.specs.declared.read.Unknown.{Unknown};
ghost use Rattle.graphql_ast_json.specs.kinds.DirectiveJson.{IsDirective};
ghost use Rattle.graphql_ast_json.specs.kinds.ValueJson.{IsValue};
ghost use Rattle.ast_json_nodes.specs.nodes.Nodes.{Each, IsNode, IsOptional};

use crate::ast_json::AstNode;
use crate::form::{Form, OnOneLine};
use graphql_ast::ast::{Directive, DirectiveList, Value};
use graphql_base::node::Node;
use graphql_base::span::SourceSpan;
use serde_json::{Map, Value as Json, json, push, put};
use std::alloc::{AllocError, Global};

/// A node that is being written: where it is to stand, and the members that it was given so far.
#[derive(Drop)]
pub struct NodeWriter {
    alloc: Global,
    location: Option<SourceSpan>,
    members: Map<String, Json>,
    /// Whether the default layout prints the node on one line, so that no string in it is a block string.
    is_on_one_line: bool,
}

/// A stretch of a source text, if there is one, by its offsets.
fn write_location(alloc: Global, location: Option<SourceSpan>) -> Result<Option<Json>, AllocError>
    ensures { IfOk result (λ json. IsLocationJson location (option_map view json)) }
{
    match location {
        Some(span) => {
            let json = json!(in alloc; {"start": (span.start()), "end": (span.end())})?;
            Ok(Some(json))
        }
        None => Ok(None),
    }
}

/// An array of the JSON of these trees, one by one. `AllocError` if an allocation fails.
pub(crate) fn write_list<F: Form>(alloc: Global, values: &[F::Value]) -> Result<Json, AllocError>
    ensures { IfOk result (λ json. (unknown : Unknown) → IsSomeAnd (as_array (view json))
        (Each (F.is_json_of unknown) (map F.tree values.now))) }
{
    let mut list = Vec::new(alloc);
    for value in values {
        let json = F::write(alloc, value)?;
        push(&mut list, json)?;
    }
    Ok(Json::Array(list))
}

impl NodeWriter {
    /// A node that is to stand at a location, if there is one.
    pub(crate) fn new(alloc: Global, location: Option<SourceSpan>) -> NodeWriter
        ensures { location_of result ≡ location }
    {
        NodeWriter {
            alloc,
            location,
            members: Map::new(alloc),
            is_on_one_line: false,
        }
    }

    /// The same of a node that the default layout prints on one line.
    pub(crate) fn on_one_line(alloc: Global, location: Option<SourceSpan>) -> NodeWriter
        ensures { location_of result ≡ location }
    {
        NodeWriter {
            is_on_one_line: true,
            ..NodeWriter::new(alloc, location)
        }
    }

    /// The same of a node within this one, which is printed on one line if this one is.
    pub(crate) fn inner(&self, location: Option<SourceSpan>) -> NodeWriter
        ensures { location_of result ≡ location }
    {
        NodeWriter {
            is_on_one_line: self.is_on_one_line,
            ..NodeWriter::new(self.alloc, location)
        }
    }

    /// Whether the default layout prints the node on one line.
    pub(crate) fn is_on_one_line(&self) -> bool {
        self.is_on_one_line
    }

    /// The allocator that the node is written with.
    pub(crate) fn allocator(&self) -> Global {
        self.alloc
    }

    /// Begins a node of this kind: it has no members but its kind and its location.
    #[tactic(auto, unfolding(crate::specs::code::Drafts::beginning))]
    pub(crate) fn begin(&mut self, kind: &str) -> Result<(), AllocError>
        ensures { OnOk result (IsBegun kind.now (location_of self.old) (members_so_far self.new)) }
    {
        let location = write_location(self.alloc, self.location)?;
        self.members = Map::new(self.alloc);
        self.put_json("kind", Json::try_from_str(self.alloc, kind)?)?;
        self.put_optional_json("loc", location)?;
        Ok(())
    }

    /// Gives the node a member. After an error it has those that it had.
    pub(crate) fn put_json(&mut self, name: &str, json: Json) -> Result<(), AllocError>
        ensures ok { OnOk result
            (members_so_far self.new ≡ with_member name.now (view json) (members_so_far self.old)) }
        ensures err { OnErr result (members_so_far self.new ≡ members_so_far self.old) }
    {
        put(&mut self.members, self.alloc, name, json)
    }

    /// Gives the node a member, if there is one. After an error it has those that it had.
    pub(crate) fn put_optional_json(
        &mut self,
        name: &str,
        json: Option<Json>,
    ) -> Result<(), AllocError>
        ensures ok { OnOk result
            (members_so_far self.new
            ≡ put_optional name.now (option_map view json) (members_so_far self.old)) }
        ensures err { OnErr result (members_so_far self.new ≡ members_so_far self.old) }
    {
        match json {
            Some(json) => self.put_json(name, json),
            None => Ok(()),
        }
    }

    /// Gives the node a member that is the JSON of this tree.
    pub(crate) fn put<F: Form>(&mut self, name: &str, value: &F::Value) -> Result<(), AllocError>
        ensures { OnOk result
            (IsGiven name.now
            (λ json. (unknown : Unknown) → IsSomeAnd json (F.is_json_of unknown (F.tree value.now)))
            (members_so_far self.old) (members_so_far self.new)) }
    {
        let json = F::write(self.alloc, value)?;
        self.put_json(name, json)
    }

    /// Gives the node a member that is the JSON of this tree, if there is one.
    pub(crate) fn put_optional<F: Form>(
        &mut self,
        name: &str,
        value: &Option<F::Value>,
    ) -> Result<(), AllocError>
        ensures { OnOk result
            (IsGiven name.now (λ json. (unknown : Unknown)
            → IsOptional (F.is_json_of unknown) (option_map F.tree value.now) json)
            (members_so_far self.old) (members_so_far self.new)) }
    {
        match value {
            Some(value) => self.put::<F>(name, value),
            None => Ok(()),
        }
    }

    /// Gives the node a member that is an array of the JSON of these trees.
    pub(crate) fn put_list<F: Form>(
        &mut self,
        name: &str,
        values: &[F::Value],
    ) -> Result<(), AllocError>
        ensures { OnOk result
            (IsGiven name.now (λ json. (unknown : Unknown)
            → IsArrayOf (Each (F.is_json_of unknown) (map F.tree values.now)) json)
            (members_so_far self.old) (members_so_far self.new)) }
    {
        let json = write_list::<F>(self.alloc, values)?;
        self.put_json(name, json)
    }

    /// The same of nodes that the default layout prints over lines, or on one line.
    pub(crate) fn put_parameters<T: AstNode + Drop>(
        &mut self,
        name: &str,
        parameters: &[Node<T>],
        over_lines: bool,
    ) -> Result<(), AllocError>
        ensures { OnOk result
            (IsGiven name.now (λ json. (unknown : Unknown) → IsArrayOf (Each (T.is_node unknown)
            (map (λ node. T.tree (node_value node)) parameters.now)) json)
            (members_so_far self.old) (members_so_far self.new)) }
    {
        if over_lines {
            self.put_list::<Node<T>>(name, parameters)
        } else {
            self.put_list::<OnOneLine<T>>(name, parameters)
        }
    }

    /// Gives the node a member `defaultValue`, if there is such a value, which is printed on one line if the node is.
    pub(crate) fn put_default_value(
        &mut self,
        value: &Option<Node<Value>>,
    ) -> Result<(), AllocError>
        ensures { OnOk result
            (IsGiven (codes "defaultValue") (λ json. (unknown : Unknown) → IsOptional
            (IsValue unknown) (option_map (λ node. value_tree (node_value node)) value.now) json)
            (members_so_far self.old) (members_so_far self.new)) }
    {
        if self.is_on_one_line {
            self.put_optional::<OnOneLine<Value>>("defaultValue", value)
        } else {
            self.put_optional::<Node<Value>>("defaultValue", value)
        }
    }

    /// Gives the node a member `directives`.
    pub(crate) fn put_directives(&mut self, list: &DirectiveList) -> Result<(), AllocError>
        ensures { OnOk result
            (IsGiven (codes "directives") (λ json. (unknown : Unknown)
            → IsArrayOf (Each (IsDirective unknown) (directive_trees list.now)) json)
            (members_so_far self.old) (members_so_far self.new)) }
    {
        self.put_list::<Node<Directive>>("directives", list.0.as_slice())
    }

    /// Gives the node a member that is this text.
    pub(crate) fn put_text(&mut self, name: &str, text: &str) -> Result<(), AllocError>
        ensures { OnOk result (IsGiven name.now (λ json. json ≡ Some (string text.now))
            (members_so_far self.old) (members_so_far self.new)) }
    {
        let json = Json::try_from_str(self.alloc, text)?;
        self.put_json(name, json)
    }

    /// Gives the node a member that is this boolean.
    pub(crate) fn put_boolean(&mut self, name: &str, is_so: bool) -> Result<(), AllocError>
        ensures { OnOk result (IsGiven name.now (λ json. json ≡ Some (boolean is_so))
            (members_so_far self.old) (members_so_far self.new)) }
    {
        self.put_json(name, Json::Bool(is_so))
    }

    /// Gives the node a member that is true, if it is so.
    pub(crate) fn put_flag(&mut self, name: &str, is_so: bool) -> Result<(), AllocError>
        ensures { OnOk result
            (IsGiven name.now (λ json. json ≡ (if is_so then Some (boolean true) else None))
            (members_so_far self.old) (members_so_far self.new)) }
    {
        if is_so {
            self.put_boolean(name, true)
        } else {
            Ok(())
        }
    }

    /// The node as it stands.
    pub(crate) fn into_json(self) -> Json
        ensures { view result ≡ written self }
    {
        Json::Object(self.members)
    }

    /// A node of this kind that has no members.
    pub(crate) fn with_none(mut self, kind: &str) -> Result<Json, AllocError>
        ensures node { IfOk result (λ node. (unknown : Unknown)
            → IsNode unknown kind.now [] (view node)) }
        ensures stands { IfOk result (λ node. StandsAt (location_of self) (view node)) }
    {
        self.begin(kind)?;
        Ok(self.into_json())
    }

    /// A node of this kind that has one member.
    pub(crate) fn with_member(
        mut self,
        kind: &str,
        name: &str,
        json: Json,
    ) -> Result<Json, AllocError>
        requires { is_one_of (codes "loc" ∷ codes "kind" ∷ []) name.now ≡ false }
        ensures node { IfOk result (λ node. (unknown : Unknown)
            → IsNode unknown kind.now (name.now ∷ []) (view node)) }
        ensures stands { IfOk result (λ node. StandsAt (location_of self) (view node)) }
        ensures member { IfOk result (λ node. get name.now (view node) ≡ Some (view json)) }
    {
        self.begin(kind)?;
        self.put_json(name, json)?;
        Ok(self.into_json())
    }

    /// A node of this kind whose one member is a text.
    pub(crate) fn with_text(mut self, kind: &str, text: &str) -> Result<Json, AllocError>
        ensures ok { IfOk result (λ node. (unknown : Unknown)
            → IsTextNode unknown kind.now text.now (view node)) }
        ensures stands { IfOk result (λ node. StandsAt (location_of self) (view node)) }
    {
        self.begin(kind)?;
        self.put_text("value", text)?;
        Ok(self.into_json())
    }
}
