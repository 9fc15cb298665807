//! The tokens of a SQL text.
//!
//! `lex` cuts a text into `Token`s: a kind, a value and the place, in bytes, at which each begins. The list ends with the first token
//! that is bad. `quote_text` and `is_plain` are for who spells names and texts again. What a token is stands in `specs/Lex.antt`;
//! begin reading there, and then at `lexer.rt`.
#![tactic(auto)]

mod lexer;
mod quotes;
mod token;

pub use lexer::{is_plain, lex};
pub use quotes::quote_text;
pub use token::{Kind, Token, Value};
