ghost use Rattle.std.specs.Prelude.{◌≡◌, map, option_map, bytes_eq, codes, Some, IfOk};
ghost use Rattle.clap.specs.Matches.{found_of};
ghost use Rattle.clap.specs.Walk.{first_of, rows_of};
ghost use Rattle.spelled_counts.specs.Counts.{count_of};
ghost use Rattle.command_words.specs.Matched.{IsRead};
ghost use Rattle.command_words.specs.Words.{form_of, most_rows, command_of_two, command_of_three, command_of, words_with, words_of_rows, words_of};
ghost use Rattle.command_words.specs.declared.words.Command.TheVariants.{Load};

use crate::matching::matched;
use crate::words::{Command, Words, WordsFault};
use answer_text::Form;
use clap::ArgMatches;
use sp_value::{Memory, Text};
use spelled_counts::count_of;
use std::alloc::Global;

/// How many rows `load` may have.
const MOST_ROWS: u32 = 100_000;

fn is_word(text: &str, word: &str) -> bool
    ensures { result ≡ bytes_eq text.now word.now }
{
    text.as_bytes() == word.as_bytes()
}

fn form_of(word: &str) -> Option<Form>
    ensures { result ≡ form_of word.now }
{
    if is_word(word, "line") {
        Some(Form::Line)
    } else if is_word(word, "csv") {
        Some(Form::Csv)
    } else if is_word(word, "json") {
        Some(Form::Json)
    } else if is_word(word, "table") {
        Some(Form::Table)
    } else {
        None
    }
}

fn load(number: &str) -> Result<Command, WordsFault>
    ensures { IsRead result (option_map Load (count_of most_rows number.now)) }
{
    match count_of(MOST_ROWS, number) {
        Some(count) => Ok(Command::Load {
            count: u64::from(count),
        }),
        None => Err(WordsFault::Usage),
    }
}

fn command_of_two(alloc: Global, word: &str, name: &str) -> Result<Command, WordsFault>
    ensures { IsRead result (command_of_two word.now name.now) }
{
    if is_word(word, "query") {
        let settings = Text::from_str(alloc, name)?;
        Ok(Command::Query { settings })
    } else if is_word(word, "load") {
        load(name)
    } else {
        Err(WordsFault::Usage)
    }
}

fn command_of_three(
    alloc: Global,
    word: &str,
    name: &str,
    second: &str,
) -> Result<Command, WordsFault>
    ensures { IsRead result (command_of_three word.now name.now second.now) }
{
    if !is_word(word, "explain") {
        return Err(WordsFault::Usage);
    }
    let settings = Text::from_str(alloc, name)?;
    let declaration = Text::from_str(alloc, second)?;
    Ok(Command::Explain {
        settings,
        declaration,
    })
}

fn words_with(command: Command, form: &str) -> Result<Words, WordsFault>
    ensures { IsRead result (words_with (Some command) (form_of form.now)) }
{
    match form_of(form) {
        Some(form) => Ok(Words { command, form }),
        None => Err(WordsFault::Usage),
    }
}

/// The command, where SECOND may be missing.
#[tactic(auto, using(crate::proofs::Matches::first_is))]
fn command_of(
    alloc: Global,
    matches: &ArgMatches,
    word: &str,
    name: &str,
) -> Result<Command, WordsFault>
    ensures { IsRead result (command_of word.now name.now (first_of (codes "SECOND") (rows_of (found_of matches.now)))) }
{
    match matches.get_str("SECOND") {
        Some(second) => command_of_three(alloc, word, name, second),
        None => command_of_two(alloc, word, name),
    }
}

#[tactic(auto, using(crate::proofs::Matches::first_is))]
fn words_of_matches(alloc: Global, matches: &ArgMatches) -> Result<Words, WordsFault>
    ensures { IsRead result (words_of_rows (rows_of (found_of matches.now))) }
{
    let Some(form) = matches.get_str("output") else {
        return Err(WordsFault::Usage);
    };
    let Some(word) = matches.get_str("COMMAND") else {
        return Err(WordsFault::Usage);
    };
    let Some(name) = matches.get_str("NAME") else {
        return Err(WordsFault::Usage);
    };
    let command = command_of(alloc, matches, word, name)?;
    words_with(command, form)
}

/// The words as the parser takes them.
fn lent<'a>(alloc: Global, words: &'a [Text]) -> Result<Vec<&'a str>, Memory>
    ensures { IfOk result (λ v. map (λ w. w.now) v.items ≡ words.now) }
{
    let mut list = Vec::with_capacity(alloc, words.len())?;
    for word in words {
        list.push(word.as_str())?;
    }
    Ok(list)
}

/// What the words say, the first of which is the program's name: `query SETTINGS`, `explain SETTINGS DECLARATION` or `load NUMBER`, with
/// `--output` and one of `line`, `csv`, `json` and `table`, which is the form where nothing is said. All other words are `Usage`.
pub fn read_words(alloc: Global, words: &[Text]) -> Result<Words, WordsFault>
    ensures { IsRead result (words_of words.now) }
{
    let list = lent(alloc, words)?;
    let matches = matched(alloc, list.as_slice())?;
    words_of_matches(alloc, &matches)
}
