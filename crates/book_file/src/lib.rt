//! Books: files of what a plugin answers. A book gives a declaration, versions by their ticks, and the replies to calls.
#![tactic(auto)]

mod attempt;
mod book;
mod declared;
mod fault;
mod matching;
mod reading;
mod routes;
mod version_at;

pub use book::Book;
pub use fault::BookFault;
pub use reading::{book_from, read_book};
