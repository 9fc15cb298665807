//! What comes of the calls of `command_words`.

use answer_text::Form;
use case_tables::{str_at, word};
use command_words::{Command, Words, WordsFault, read_words};
use sp_value::{Text, Texts};
use std::alloc::Global;

pub fn outcome(alloc: Global, call: &str, given: &[Vec<u8>]) -> Option<String> {
    match call {
        "read_words" => read(alloc, given),
        _ => None,
    }
}

fn words_at(alloc: Global, given: &[Vec<u8>]) -> Option<Texts> {
    let mut words = Texts::new(alloc);
    for word in str_at(given, 0)?.split("|") {
        words.push(Text::from_str(alloc, word).ok()?).ok()?;
    }
    Some(words)
}

fn command_words(alloc: Global, command: &Command, form: Form) -> Option<String> {
    match command {
        Command::Query { settings } => {
            format!(in alloc; "{form:?} query {}", settings.as_str()).ok()
        }
        Command::Explain {
            settings,
            declaration,
        } => format!(in alloc;
            "{form:?} explain {} {}",
            settings.as_str(),
            declaration.as_str()
        )
        .ok(),
        Command::Load { count } => format!(in alloc; "{form:?} load {count}").ok(),
    }
}

/// Words with bars between: the form and the command.
fn read(alloc: Global, given: &[Vec<u8>]) -> Option<String> {
    match read_words(alloc, words_at(alloc, given)?.as_slice()) {
        Ok(Words { command, form }) => command_words(alloc, &command, form),
        Err(WordsFault::Usage) => word(alloc, "usage"),
        Err(WordsFault::Memory) => None,
    }
}
