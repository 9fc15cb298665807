//! The pieces of one call's reply, as they come: its items in the order of their places, each once, over any number of restarts.
//!
//! Begin with `ListStream` and `specs/Streams.antt`, which says what each piece makes of it; `specs/Agreeing.antt` ties it to the
//! reply.
#![tactic(auto)]

mod fault;
mod stream;

pub use fault::FeedFault;
pub use stream::ListStream;
