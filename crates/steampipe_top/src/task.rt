// What the words ask for.

ghost use Rattle.std.specs.Prelude.{◌≡◌};
ghost use Rattle.steampipe_top.specs.Running.{IsTask, IsTaskOf};

use answer_text::Form;
use command_words::{Command, Words, WordsFault, read_words};
use sp_value::Text;
use std::alloc::Global;

/// What the words ask for: answers to the input's lines, by a settings file and in a form; the scans of its statements, by a settings and a
/// declaration file; a load of so many rows; or nothing.
#[derive(Drop)]
pub(crate) enum Task {
    Query { settings: Text, form: Form },
    Explain { settings: Text, declaration: Text },
    Load { count: u64, form: Form },
    Nothing,
    Memory,
}

fn task_of(words: Words) -> Task
    ensures { IsTaskOf result words }
{
    let Words { command, form } = words;
    match command {
        Command::Query { settings } => Task::Query { settings, form },
        Command::Explain {
            settings,
            declaration,
        } => Task::Explain {
            settings,
            declaration,
        },
        Command::Load { count } => Task::Load { count, form },
    }
}

/// What the words ask for.
#[tactic(auto, using(crate::proofs::Tasks::task_of_words))]
pub(crate) fn read_task(alloc: Global, words: &[Text]) -> Task
    ensures { IsTask result words.now }
{
    match read_words(alloc, words) {
        Ok(words) => task_of(words),
        Err(WordsFault::Usage) => Task::Nothing,
        Err(WordsFault::Memory) => Task::Memory,
    }
}
