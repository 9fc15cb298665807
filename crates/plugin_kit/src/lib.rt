//! A plugin's loop: reads request lines from a source, and writes to a sink what the plugin's routes answer.
//!
//! A plugin is a `Routes`: what it answers to a call, a version and a declaration. `serve` takes each line of the input as a request and
//! writes the lines of its answer, in the order of the requests, until the input ends (`Served::End`), a line is no request (`BadLine`), or a
//! read or a write fails. What has been written when stands in `specs/Serving.antt`.
//!
//! ```text
//! match serve(alloc, &mut source, &mut sink, &routes) {
//!     Served::End => ExitCode::SUCCESS,
//!     _ => ExitCode::FAILURE,
//! }
//! ```
#![tactic(auto)]

mod answering;
mod line_answer;
mod routes;
mod served;
mod serving;
mod stop;

pub use routes::Routes;
pub use served::Served;
pub use serving::serve;
