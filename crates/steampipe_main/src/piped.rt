ghost use Rattle.std.specs.Prelude.{◌≡◌, ◌≤◌, [], false};
ghost use Rattle.sp_outside.specs.Causes.{up};

use crate::child_log::ChildLog;
use crate::pending_lines::{LineEnd, next_line};
use crate::program::{Program, Streams, send_line, start_program};
use byte_lines::PendingBytes;
use sp_outside::{Child, ChildEnd, Failed};
use sp_value::Text;
use sp_world::Untold;
use std::alloc::Global;
use std::marker::Model;
use std::process::Processes;
use std::snapshot::Snapshot;
use std::thread;
use std::time::{Clock, Duration};

/// How often programs that were asked to end are looked at before they are killed.
const LOOKS: u32 = 50;

/// The milliseconds between two looks.
const PAUSE: u64 = 10;

/// A program whose standard input and output are pipes. It has this program's working directory and environment, and its standard error is
/// discarded, or goes into its log. Contracts see its counts and its last line.
#[derive(Drop)]
pub(crate) struct PipedChild<R: Processes + Clock + Copy> {
    rt: R,
    alloc: Global,
    connection: Text,
    words: Vec<String>,
    streams: Option<Streams<R>>,
    program: Option<Program<R>>,
    log: ChildLog<R>,
    pending: PendingBytes,
    runs: bool,
    faults: u64,
    sent: u64,
    given: u64,
    last: Option<Snapshot<Vec<u8>>>,
}

impl<R: Processes + Clock + Copy> Model for PipedChild<R> {
    ghost use Rattle.steampipe_main.specs.Piped.{Counts, last_line};

    ghost Value = { Counts };

    ghost view = { λ c. record { connection = c.connection; last = last_line c.last; faulted = c.faults; sends = c.sent; gives = c.given; runs = c.runs } };
}

impl<R: Processes + Clock + Copy> PipedChild<R> {
    /// The child of a connection, not started, of a program and its arguments.
    pub(crate) fn new(
        rt: R,
        alloc: Global,
        connection: Text,
        words: Vec<String>,
        log: ChildLog<R>,
    ) -> PipedChild<R>
        ensures { result ≡ record { connection = connection; last = []; faulted = 0; sends = 0; gives = 0; runs = false } }
    {
        PipedChild {
            rt,
            alloc,
            connection,
            words,
            streams: None,
            program: None,
            log,
            pending: PendingBytes::new(alloc),
            runs: false,
            faults: 0,
            sent: 0,
            given: 0,
            last: None,
        }
    }

    /// Closes the program's input and output, so that it can end by itself. It sends and gives nothing until the next start.
    pub(crate) fn let_end(&mut self)
        ensures { self.new ≡ self.old }
    {
        self.streams = None;
    }

    /// Whether no program runs. One that has ended is waited for.
    fn has_ended(&mut self) -> bool
        ensures { self.new ≡ self.old }
    {
        let Some(program) = &mut self.program else {
            return true;
        };
        match program.look() {
            Ok(None) => return false,
            Ok(Some(status)) => self.log.ended(status),
            Err(_) => {}
        }
        self.program = None;
        true
    }

    /// Kills the program where one runs, and waits for it.
    fn kill(&mut self)
        ensures { self.new ≡ self.old }
    {
        if let Some(program) = &mut self.program {
            self.log.runs_on();
            if let Ok(status) = program.kill() {
                self.log.ended(status);
            }
        }
        self.program = None;
    }

    /// Ends the program, so that another can be started.
    fn stop(&mut self)
        ensures { self.new ≡ self.old }
    {
        self.let_end();
        for _ in 0..LOOKS {
            if self.has_ended() {
                return;
            }
            thread::sleep(&self.rt, Duration::from_millis(PAUSE));
        }
        self.kill();
    }
}

/// Waits for the programs of these children together, half a second in all, and kills those that are left.
pub(crate) fn end_all<R: Processes + Clock + Copy>(rt: &R, children: &mut [PipedChild<R>]) {
    for _ in 0..LOOKS {
        if have_ended(children) {
            return;
        }
        thread::sleep(rt, Duration::from_millis(PAUSE));
    }
    kill_all(children);
}

/// Whether none of these children's programs runs.
fn have_ended<R: Processes + Clock + Copy>(children: &mut [PipedChild<R>]) -> bool {
    let mut all = true;
    for child in children.iter_mut() {
        all = child.has_ended() && all;
    }
    all
}

/// Kills those of these children's programs that run.
fn kill_all<R: Processes + Clock + Copy>(children: &mut [PipedChild<R>]) {
    for child in children.iter_mut() {
        child.kill();
    }
}

/// Counts a fault.
fn count(faults: &mut u64) -> Failed
    ensures one { faults.new ≡ up faults.old }
    ensures later { faults.old ≤ faults.new }
{
    *faults = faults.saturating_add(1);
    Failed
}

impl<R: Processes + Clock + Copy> Child<Untold> for PipedChild<R> {
    ghost use Rattle.std.specs.Prelude.{[]};

    ghost log = { λ _. [] };

    ghost connection = { λ c. c.connection };

    ghost last = { λ c. c.last };

    ghost faulted = { λ c. c.faulted };

    ghost sends = { λ c. c.sends };

    ghost gives = { λ c. c.gives };

    ghost runs = { λ c. c.runs };

    fn start(&mut self) -> Result<(), Failed> {
        self.pending.clear();
        self.stop();
        let errors = self.log.standard_error();
        match start_program(&self.rt, self.alloc, self.words.as_slice(), errors) {
            Ok((program, streams)) => {
                self.log.started(self.words.as_slice(), program.number());
                self.program = Some(program);
                self.streams = Some(streams);
                self.runs = true;
                Ok(())
            }
            Err(error) => {
                self.log.not_started(self.words.as_slice(), &error);
                self.runs = false;
                Err(count(&mut self.faults))
            }
        }
    }

    fn send(&mut self, line: &[u8]) -> Result<(), Failed> {
        self.sent = self.sent.saturating_add(1);
        if self.runs {
            if let Some(streams) = &mut self.streams {
                match send_line(self.alloc, &mut streams.input, line) {
                    Ok(()) => return Ok(()),
                    Err(error) => self.log.not_sent(&error),
                }
            }
        }
        Err(count(&mut self.faults))
    }

    fn receive(&mut self, alloc: Global) -> Result<Vec<u8>, ChildEnd> {
        if self.runs {
            if let Some(streams) = &mut self.streams {
                match next_line(alloc, &mut self.pending, &mut streams.output) {
                    Ok(line) => {
                        self.given = self.given.saturating_add(1);
                        self.last = Some(Snapshot::of(&line));
                        self.log.gave(&line);
                        return Ok(line);
                    }
                    Err(LineEnd::Memory) => return Err(ChildEnd::Memory),
                    Err(LineEnd::Fault(error)) => {
                        self.log.not_received(&error, self.pending.bytes());
                    }
                }
            }
        }
        count(&mut self.faults);
        Err(ChildEnd::Failed)
    }

    fn faults(&self) -> u64 {
        self.faults
    }

    fn sent(&self) -> u64 {
        self.sent
    }

    fn given(&self) -> u64 {
        self.given
    }
}
