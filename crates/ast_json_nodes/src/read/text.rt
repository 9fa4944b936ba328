//! JSON from a text.
ghost use Rattle.std.specs.Prelude.{◌≡◌, IfOk, IfErr, Some, None};
ghost use Rattle.serde_json.specs.Read.{read};
ghost use Rattle.serde_json.specs.View.{view};
ghost use Rattle.ast_json_nodes.specs.code.Errors.{DepthIsTold, IsMemory};

use crate::error::AstJsonError;
use parsed_json::is_too_deep;
use serde_json::Value as Json;
use std::alloc::Global;

/// The JSON that a text is.
#[doc(hidden)]
pub fn read_json(alloc: Global, text: &str) -> Result<Json, AstJsonError>
    ensures ok { IfOk result (λ json. read text.now ≡ Some (view json)) }
    ensures err { IfErr result (λ error. ¬ IsMemory error → read text.now ≡ None) }
    ensures depth { IfErr result (DepthIsTold text.now) }
{
    let error = match Json::from_str(alloc, text) {
        Ok(json) => return Ok(json),
        Err(error) => error,
    };
    if error.is_memory() {
        return Err(AstJsonError::Memory);
    }
    if is_too_deep(alloc, text)? {
        return Err(AstJsonError::TooDeep);
    }
    Err(AstJsonError::NotJson(error))
}
