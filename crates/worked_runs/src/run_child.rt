ghost use Rattle.std.specs.Prelude.{◌≡◌, IfOk, false};

use crate::child_case::{ChildCase, Voice};
use crate::open_replies::OpenReplies;
use sp_outside::{Child, ChildEnd, Failed, MemoryClock};
use sp_value::{Memory, Text};
use sp_world::Untold;
use sqlite_items::Items;
use std::alloc::Global;

/// How many bytes a line may have.
const LINE_LIMIT: usize = 1_048_576;

/// A line that a child heard, and the tick at which it did.
#[derive(Drop)]
pub(crate) struct Heard {
    pub(crate) tick: u64,
    pub(crate) line: Vec<u8>,
}

/// The child of a connection, as a case has it. One of which the case says nothing gives no line.
#[derive(Drop)]
pub(crate) struct RunChild<'a> {
    alloc: Global,
    clock: &'a MemoryClock,
    case: Option<&'a ChildCase>,
    pub(crate) connection: Text,
    pub(crate) heard: Vec<Heard>,
    open: OpenReplies,
    calls: u64,
    last: Vec<u8>,
    runs: bool,
    faults: u64,
    sent: u64,
    given: u64,
}

fn copy(alloc: Global, line: &[u8]) -> Result<Vec<u8>, Memory>
    ensures { IfOk result (λ v. v.items ≡ line.now) }
{
    match Vec::from_slice(alloc, line) {
        Ok(copy) => Ok(copy),
        Err(_) => Err(Memory),
    }
}

/// The place in the list of picks, or the first.
fn pick_at(picks: &Items<u64>, number: u64) -> u64 {
    match picks.get(number as usize) {
        Some(pick) => *pick,
        None => 0,
    }
}

/// Whether the call of `start`, `send` or `receive` of this number fails.
fn fails_at(case: Option<&ChildCase>, number: u64) -> bool {
    match case {
        Some(case) => case.script.fails.as_slice().contains(&number),
        None => false,
    }
}

/// The next line of a child.
fn next_line<'b>(case: &'b ChildCase, open: &'b OpenReplies, given: u64) -> Option<&'b [u8]> {
    match &case.voice {
        Voice::Lines(lines) => match lines.get(given as usize) {
            Some(line) => Some(line.as_slice()),
            None => None,
        },
        Voice::Book(_book) => open.next(pick_at(&case.script.picks, given)),
    }
}

fn hear(alloc: Global, heard: &mut Vec<Heard>, tick: u64, line: &[u8]) -> Result<(), Memory> {
    let line = copy(alloc, line)?;
    match heard.push(Heard { tick, line }) {
        Ok(()) => Ok(()),
        Err(_) => Err(Memory),
    }
}

/// Opens a call, where a book answers.
fn open_call(
    alloc: Global,
    case: Option<&ChildCase>,
    open: &mut OpenReplies,
    line: &[u8],
) -> Result<(), Memory> {
    match case {
        Some(
            ChildCase {
                voice: Voice::Book(book),
                ..
            },
        ) => open.open(alloc, book, line),
        _ => Ok(()),
    }
}

impl<'a> RunChild<'a> {
    /// A child that was not started.
    pub(crate) fn new(
        alloc: Global,
        clock: &'a MemoryClock,
        case: Option<&'a ChildCase>,
        connection: Text,
    ) -> RunChild<'a>
        ensures own { result.connection ≡ connection }
        ensures stands { result.runs ≡ false }
        ensures counts { (result.faults ≡ 0) × (result.sent ≡ 0) × (result.given ≡ 0) }
    {
        RunChild {
            alloc,
            clock,
            case,
            connection,
            heard: Vec::new(alloc),
            open: OpenReplies::new(alloc),
            calls: 0,
            last: Vec::new(alloc),
            runs: false,
            faults: 0,
            sent: 0,
            given: 0,
        }
    }
}

impl Child<Untold> for RunChild<'_> {
    ghost use Rattle.std.specs.Prelude.{[]};

    ghost connection = { λ c. c.connection };

    ghost log = { λ _. [] };

    ghost last = { λ c. c.last.items };

    ghost faulted = { λ c. c.faults };

    ghost sends = { λ c. c.sent };

    ghost gives = { λ c. c.given };

    ghost runs = { λ c. c.runs };

    fn start(&mut self) -> Result<(), Failed> {
        let fails = fails_at(self.case, self.calls);
        self.calls = self.calls.saturating_add(1);
        self.open.clear();
        self.runs = !fails;
        if !fails {
            return Ok(());
        }
        self.faults = self.faults.saturating_add(1);
        Err(Failed)
    }

    fn send(&mut self, line: &[u8]) -> Result<(), Failed> {
        let fails = fails_at(self.case, self.calls);
        self.calls = self.calls.saturating_add(1);
        self.sent = self.sent.saturating_add(1);
        let tick = self.clock.tick();
        if self.runs
            && !fails
            && hear(self.alloc, &mut self.heard, tick, line).is_ok()
            && open_call(self.alloc, self.case, &mut self.open, line).is_ok()
        {
            return Ok(());
        }
        self.faults = self.faults.saturating_add(1);
        Err(Failed)
    }

    fn receive(&mut self, alloc: Global) -> Result<Vec<u8>, ChildEnd> {
        let fails = fails_at(self.case, self.calls);
        self.calls = self.calls.saturating_add(1);
        if self.runs && !fails {
            if let Some(case) = self.case {
                if let Some(line) = next_line(case, &self.open, self.given) {
                    if line.len() <= LINE_LIMIT {
                        let (Ok(given), Ok(last)) = (copy(alloc, line), copy(alloc, line)) else {
                            return Err(ChildEnd::Memory);
                        };
                        self.last = last;
                        self.open.advance(pick_at(&case.script.picks, self.given));
                        self.given = self.given.saturating_add(1);
                        return Ok(given);
                    }
                }
            }
        }
        self.faults = self.faults.saturating_add(1);
        Err(ChildEnd::Failed)
    }

    fn faults(&self) -> u64 {
        self.faults
    }

    fn sent(&self) -> u64 {
        self.sent
    }

    fn given(&self) -> u64 {
        self.given
    }
}
