//! The texts of answers, and of their notes.
//!
//! `block` spells an `Answer` in a `Form`: rows as csv, JSON, a table or lines, and an error as one line (`ErrorLine`). `notes` spells when
//! it began and its scans. Begin reading at `answer.rt` and `block_text.rt`; `specs/Blocks.antt` and `specs/Notes.antt` say the bytes.
#![tactic(auto)]

mod answer;
mod block_text;
mod columns;
mod csv_text;
mod errors;
mod json_text;
mod line_text;
mod note_text;
mod shown;
mod spelled;
mod table_text;

pub use answer::{Answer, DeclarationFault, ErrorLine, Form, ShownEnd};
pub use block_text::block;
pub use columns::push_escaped;
pub use errors::{declaration_words, error_line, error_text};
pub use note_text::{access_word, notes};
pub use spelled::push_all;
