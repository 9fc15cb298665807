//! The outside as traits: where bytes are read and written, files, a clock, children that answer calls; and each of them in memory.
//!
//! `ByteSource`, `Sink`, `Shelf`, `Clock`, `Child` and `Nursery` answer a fault only where their count of faults rose, or stands at its end
//! (`specs/Causes.antt`). A child that tells has a log of the lines heard and given, from which its open calls follow (`specs/Log.antt`).
//! `MemorySource`, `MemorySink`, `MemoryShelf`, `MemoryClock`, `BookChild` and `BookNursery` are the same in memory. Begin reading at
//! `sink.rt`, the smallest of them.
#![tactic(auto)]

mod book_child;
mod book_log;
mod book_nursery;
mod child;
mod child_script;
mod clock;
mod failing;
mod log;
mod memory_clock;
mod memory_shelf;
mod memory_sink;
mod memory_source;
mod nursery;
mod shelf;
mod sink;
mod source;

pub use book_child::BookChild;
pub use book_nursery::BookNursery;
pub use child::{Child, ChildEnd};
pub use child_script::ChildScript;
pub use clock::{Clock, ClockPass};
pub use failing::Failed;
pub use log::{Event, Loss, OpenCall, PendingCalls};
pub use memory_clock::MemoryClock;
pub use memory_shelf::MemoryShelf;
pub use memory_sink::MemorySink;
pub use memory_source::MemorySource;
pub use nursery::Nursery;
pub use shelf::{Shelf, ShelfEnd};
pub use sink::{Sink, write_all};
pub use source::{ByteSource, ReadEnd, read_to_limit};
