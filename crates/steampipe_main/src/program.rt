ghost use Rattle.std.specs.Prelude.{◌++◌, ◌∷◌, [], OnOk};
ghost use Rattle.std.specs.Io.KnownBytes.{Appends};

use std::alloc::{AllocError, Global};
use std::fs::File;
use std::io::{self, ErrorKind, Write};
use std::process::{self, Command, ExitStatus, OpenProcess, Processes, Stdio};

/// Our ends of a program's standard input and output.
#[derive(Drop)]
pub(crate) struct Streams<R: Processes> {
    pub(crate) input: <<R as Processes>::Started as OpenProcess>::Stdin,
    pub(crate) output: <<R as Processes>::Started as OpenProcess>::Stdout,
}

/// A program that was started. Where it is let go it runs no more.
pub(crate) struct Program<R: Processes> {
    child: process::Child<R::Started>,
}

impl<R: Processes> Drop for Program<R> {
    fn drop(self) {
        let Program { mut child } = self;
        if child.kill().is_ok() {
            let _ = child.wait();
        }
    }
}

impl<R: Processes> Program<R> {
    /// Its number at the machine.
    pub(crate) fn number(&self) -> u32 {
        self.child.id()
    }

    /// How it ended, none while it runs.
    pub(crate) fn look(&mut self) -> io::Result<Option<ExitStatus>> {
        self.child.try_wait()
    }

    /// Kills it, and gives how it ended.
    pub(crate) fn kill(&mut self) -> io::Result<ExitStatus> {
        self.child.kill()?;
        self.child.wait()
    }
}

/// Starts a program by its words, the first of which names it. Its standard error goes into the file, where there is one.
pub(crate) fn start_program<R: Processes>(
    rt: &R,
    alloc: Global,
    words: &[String],
    errors: Option<File>,
) -> io::Result<(Program<R>, Streams<R>)> {
    let Some((program, arguments)) = words.split_first() else {
        return Err(io::Error::from(ErrorKind::InvalidInput));
    };
    let mut command = Command::new(alloc, program.as_str())?;
    for argument in arguments {
        command.arg(argument.as_str())?;
    }
    command.stdin(Stdio::piped());
    command.stdout(Stdio::piped());
    command.stderr(match errors {
        Some(file) => Stdio::from(file),
        None => Stdio::null(),
    });
    let mut program: Program<R> = Program {
        child: command.spawn(rt)?,
    };
    match (program.child.stdin.take(), program.child.stdout.take()) {
        (Some(input), Some(output)) => Ok((program, Streams { input, output })),
        _ => Err(io::Error::from(ErrorKind::Unsupported)),
    }
}

/// Writes a line and its line feed.
pub(crate) fn send_line<K: Write>(alloc: Global, input: &mut K, line: &[u8]) -> io::Result<()>
    ensures { OnOk result (Appends (K.contents input.old) (K.contents input.new) (line.now ++ 10 ∷ [])) }
{
    let mut whole = Vec::with_capacity(alloc, line.len().saturating_add(1))?;
    whole.extend_from_slice(line)?;
    whole.push(b'\n').map_err(AllocError::from)?;
    input.write_all(whole.as_slice())?;
    input.flush()
}
