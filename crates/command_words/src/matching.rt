// The simple command, and what it makes of words.

ghost use Rattle.std.specs.Prelude.{◌≡◌, map, IfOk};
ghost use Rattle.clap.specs.Simple.{app_of};
ghost use Rattle.command_words.specs.Words.{simple_command};
ghost use Rattle.command_words.specs.Matched.{IsMatched, IsFaultOf};

use crate::words::WordsFault;
use clap::error::ErrorKind;
use clap::{Arg, ArgMatches, Command};
use std::alloc::{AllocError, Global};

/// `--output FORM COMMAND NAME SECOND`, of which the last may be missing.
fn simple_command<'a>(alloc: Global) -> Result<Command<'a>, AllocError>
    ensures { IfOk result (λ c. app_of c ≡ simple_command) }
{
    let output = Arg::new(alloc, "output")
        .long("output")
        .default_value("table");
    let word = Arg::new(alloc, "COMMAND").required(true);
    let name = Arg::new(alloc, "NAME").required(true);
    let second = Arg::new(alloc, "SECOND");
    let command = Command::new(alloc, "steampipe")
        .arg(output)?
        .arg(word)?
        .arg(name)?
        .arg(second)?;
    Ok(command)
}

/// What the words are matched to; refused where the simple command refuses them.
pub(crate) fn matched<'a>(alloc: Global, words: &'a [&'a str]) -> Result<ArgMatches<'a>, WordsFault>
    ensures { IsMatched result (map (λ w. w.now) words.now) }
{
    let Ok(command) = simple_command(alloc) else {
        return Err(WordsFault::Memory);
    };
    match command.try_get_matches_from(words) {
        Ok(matches) => Ok(matches),
        Err(error) => Err(fault_of(error.kind())),
    }
}

fn fault_of(kind: ErrorKind) -> WordsFault
    ensures { IsFaultOf kind result }
{
    match kind {
        ErrorKind::OutOfMemory => WordsFault::Memory,
        _ => WordsFault::Usage,
    }
}
