//! Operation types in AST JSON: members that are texts.
ghost use Rattle.std.specs.Prelude.{◌≡◌, IfOk, IfErr, IfSome, IsNone, Some, codes};
ghost use Rattle.serde_json.specs.Data.{string};
ghost use Rattle.graphql_values.specs.trees.LocationTrees.{operation_type_tree};
ghost use Rattle.graphql_values.specs.kinds.OperationTypes.{OperationTypeTree, operation_type_name};
ghost use Rattle.ast_json_nodes.specs.code.Errors.{IsMemory};
ghost use Rattle.ast_json_nodes.specs.code.JsonNodes.{node_data};
ghost use Rattle.ast_json_nodes.specs.nodes.Nodes.{member_of};

use ast_json_nodes::JsonNode;
use ast_json_nodes::error::AstJsonError;
use graphql_ast::ast::OperationType;

/// The operation type whose word in the grammar the text is.
fn operation_type_named(text: &str) -> Option<OperationType>
    ensures some { IfSome result
        (λ type. text.now ≡ operation_type_name (operation_type_tree type)) }
    ensures none { IsNone result
        → (tree : OperationTypeTree) → ¬ (text.now ≡ operation_type_name tree) }
{
    match text {
        "query" => Some(OperationType::Query),
        "mutation" => Some(OperationType::Mutation),
        "subscription" => Some(OperationType::Subscription),
        _ => None,
    }
}

/// The operation type that the member `operation` names.
pub(crate) fn operation_type(node: JsonNode<'_, '_>) -> Result<OperationType, AstJsonError>
    ensures ok { IfOk result (λ type. member_of (codes "operation") (node_data node.entry)
        ≡ Some (string (operation_type_name (operation_type_tree type)))) }
    ensures err { IfErr result (λ error. ¬ IsMemory error → (tree : OperationTypeTree)
        → ¬ (member_of (codes "operation") (node_data node.entry)
        ≡ Some (string (operation_type_name tree)))) }
{
    let text = node.text("operation")?;
    match operation_type_named(text) {
        Some(operation_type) => Ok(operation_type),
        None => Err(node.wrong_text("operation", text, "an operation type")),
    }
}
