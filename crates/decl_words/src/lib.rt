//! What a plugin's declaration says, and what is refused of it: the types and definitions by which
//! `decl_core` reads one, so that crates below that can speak of the tables of a reply book.
//! `specs/Reading.antt` has the reading, `specs/BookTables.antt` a book's tables, and
//! `specs/Sound.antt` what holds of each of them.
#![tactic(auto)]

mod cycles;
mod fault;
mod laws;
mod rules;
mod tables;

pub use cycles::TableCycle;
pub use fault::DeclFault;
pub use laws::book_tables_are_sound;
pub use rules::CallRules;
pub use tables::Accesses;
