ghost use Rattle.std.specs.Prelude.{◌≡◌, Ok, IfOk};
ghost use Rattle.sp_world.specs.RequestLines.{request_of, request_text, IsRequestForm};

use crate::line::Request;
use crate::parts::line_parts;
use sp_value::Memory;
use std::alloc::Global;

/// The one spelling of a request. A request of the protocol's form is read as itself again: its numbers are below 2^63, its conditions
/// are canonical, items, parents and results are objects that nest at most 100 deep, a result also null, and `function` is there exactly
/// for calls, for a hydrate call its own.
pub fn request_line(alloc: Global, request: &Request) -> Result<Vec<u8>, Memory>
    ensures spelled { IfOk result (λ v. v.items ≡ request_text request.now) }
    ensures read { IfOk result (λ v. IsRequestForm request.now → request_of v.items ≡ Ok request.now) }
{
    match request {
        Request::Ask {
            id,
            asked,
            function,
        } => {
            let parts = line_parts(alloc, asked, function)?;
            Ok(parts.fill(*id))
        }
    }
}
