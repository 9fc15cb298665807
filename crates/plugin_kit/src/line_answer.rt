ghost use Rattle.std.specs.Prelude.{◌≡◌, ◌≢◌, ◌≤◌, Some, None, Err, OnOk, IfOk, IfErr, IfSome};
ghost use Rattle.sp_outside.specs.Causes.{Rose};
ghost use Rattle.plugin_kit.specs.Lines.{request_in, kept};
ghost use Rattle.plugin_kit.specs.Steps.{bad_line, IsLineAnswered, StopsAtLine};

use crate::answering::answer;
use crate::routes::Routes;
use crate::stop::{Stop, Unwritten};
use sp_outside::Sink;
use sp_world::{LineFault, Request, read_request};
use sqlite_items::Items;
use std::alloc::Global;

/// The most bytes of a line.
pub(crate) const LONGEST: usize = 68_157_440;

/// How many bytes of a line that is too long are kept.
const KEPT: usize = 68_157_441;

/// The stop at a line that is no request.
pub(crate) fn bad_line(alloc: Global, line: &[u8]) -> Stop
    ensures kept { IfSome (bad_line result) (λ keeps. keeps ≡ kept line.now) }
    ensures written { result ≢ Stop.WriteFault }
{
    let count = KEPT.min(line.len());
    match Items::from_slice(alloc, &line[..count]) {
        Ok(line) => Stop::BadLine { line },
        Err(_) => Stop::Memory,
    }
}

/// The request that a line is.
#[tactic(auto, unfolding(crate::specs::Lines::request_in))]
fn read_line(alloc: Global, line: &[u8]) -> Result<Request, Stop>
    ensures request { IfOk result (λ r. request_in line.now ≡ Some r) }
    ensures none { IfErr result (λ stop. IfSome (bad_line stop) (λ keeps. request_in line.now ≡ None)) }
    ensures kept { IfErr result (λ stop. IfSome (bad_line stop) (λ keeps. keeps ≡ kept line.now)) }
    ensures written { result ≢ Err Stop.WriteFault }
{
    if line.len() > LONGEST {
        return Err(bad_line(alloc, line));
    }
    match read_request(alloc, line) {
        Ok(request) => Ok(request),
        Err(LineFault::Memory) => Err(Stop::Memory),
        Err(_) => Err(bad_line(alloc, line)),
    }
}

/// Answers a line.
#[tactic(auto, using(crate::proofs::Steps::line_answered, crate::proofs::Steps::stops_unread, crate::proofs::Steps::stops_unwritten))]
pub(crate) fn answer_line<R: Routes, O: Sink>(
    alloc: Global,
    sink: &mut O,
    routes: &R,
    line: &[u8],
) -> Result<(), Stop>
    ensures whole { OnOk result (IsLineAnswered (R.book routes.now) (O.held sink.old) (O.held sink.new) line.now) }
    ensures stops { IfErr result (StopsAtLine (R.book routes.now) (O.held sink.old) (O.held sink.new) line.now) }
    ensures later { O.faulted sink.old ≤ O.faulted sink.new }
    ensures cause { result ≡ Err Stop.WriteFault → Rose (O.faulted sink.old) (O.faulted sink.new) }
{
    let request = match read_line(alloc, line) {
        Ok(request) => request,
        Err(stop) => return Err(stop),
    };
    match answer(alloc, sink, routes, request) {
        Ok(()) => Ok(()),
        Err(Unwritten::Fault) => Err(Stop::WriteFault),
        Err(Unwritten::Memory) => Err(Stop::Memory),
    }
}
