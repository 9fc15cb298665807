//! Values of the definitions, computed by the checker: what scans of small tables give, use and reach, how items are asked for,
//! which kept scans serve, which calls are lawful and which notes true; and small books that meet what the laws ask. Each is the
//! contract of a function that does nothing. `specs/Samples.antt` has the tables and how replies are written down,
//! `specs/Buckets.antt` the scans to begin with.
#![tactic(auto)]

mod buckets;
mod declared;
mod filtering;
mod keyed;
mod lawful;
mod notes;
mod objects;
mod pieces;
mod serving;

pub use buckets::{functions_of_buckets, lists_of_buckets};
pub use declared::{requests_of_a_table, tables_of_a_book};
pub use filtering::{covered_scan, small_books};
pub use keyed::{access, keys, units};
pub use lawful::lawful_calls;
pub use notes::true_notes;
pub use objects::{gets, lists_by_parents, scans_of_a_book};
pub use pieces::{calls, rows};
pub use serving::kept_scans;
