ghost use Rattle.std.specs.Prelude.{◌≡◌, ◌≢◌, ◌≤◌, ◌<◌, Err, OnOk, IfOk, IfErr};
ghost use Rattle.std.specs.List.{position_or_len};
ghost use Rattle.std.specs.Io.KnownBytes.{Keeps};
ghost use Rattle.sp_outside.specs.Causes.{Rose};
ghost use Rattle.byte_lines.specs.Lines.{is_feed};
ghost use Rattle.plugin_kit.specs.Serving.{IsAnswered, IsServed};
ghost use Rattle.plugin_kit.specs.Steps.{HasNoFeed, HasPassed, StopsWithin, ReadsMore, ReadsNoMore};

use crate::line_answer::{LONGEST, answer_line, bad_line};
use crate::routes::Routes;
use crate::served::Served;
use crate::stop::{Stop, Unread, served};
use byte_lines::PendingBytes;
use sp_outside::{ByteSource, Sink};
use std::alloc::Global;

/// The most bytes of an input.
const MOST: u64 = 4_611_686_018_427_387_904;

/// The most bytes of a read.
const PIECE: usize = 4096;

/// Answers the lines that wait, as far as they are whole. No line feed is among the bytes that were searched before.
#[tactic(auto, using(crate::proofs::Steps::stop_at_line, crate::proofs::Steps::stop_at_long, crate::proofs::Steps::passed_line, crate::proofs::Steps::passed_none, byte_lines::proofs::Feeds::no_feed))]
fn answer_waiting<R: Routes, O: Sink>(
    alloc: Global,
    sink: &mut O,
    routes: &R,
    waiting: &mut PendingBytes,
    searched: usize,
) -> Result<(), Stop>
    requires { searched ≤ position_or_len is_feed waiting.old }
    ensures passed { OnOk result (HasPassed (R.book routes.now) (O.held sink.old) (O.held sink.new) waiting.old waiting.new) }
    ensures no_feed { OnOk result (HasNoFeed waiting.new) }
    ensures stops { IfErr result (StopsWithin (R.book routes.now) (O.held sink.old) (O.held sink.new) waiting.old) }
    ensures later { O.faulted sink.old ≤ O.faulted sink.new }
    ensures cause { result ≡ Err Stop.WriteFault → Rose (O.faulted sink.old) (O.faulted sink.new) }
{
    let mut at = searched;
    while let Some(end) = waiting.find_feed(at) {
        match answer_line(alloc, sink, routes, &waiting.bytes()[..end]) {
            Ok(()) => {}
            Err(stop) => return Err(stop),
        }
        waiting.pass(end + 1);
        at = 0;
    }
    if waiting.bytes().len() > LONGEST {
        return Err(bad_line(alloc, waiting.bytes()));
    }
    Ok(())
}

/// Reads one piece more, of at most `room` bytes; nothing at the end.
fn read_more<I: ByteSource>(
    source: &mut I,
    waiting: &mut PendingBytes,
    room: u64,
) -> Result<usize, Unread>
    requires { 0 < room }
    ensures more { IfOk result (λ count. ReadsMore (I.left source.old) (I.left source.new) waiting.old waiting.new room count) }
    ensures fault { result ≡ Err Unread.Fault → Keeps (I.left source.old) (I.left source.new) }
    ensures lost { result ≡ Err Unread.Memory → ReadsNoMore (I.left source.old) (I.left source.new) room }
    ensures later { I.faulted source.old ≤ I.faulted source.new }
    ensures cause { result ≡ Err Unread.Fault → Rose (I.faulted source.old) (I.faulted source.new) }
{
    let mut piece = [0u8; PIECE];
    let most = room.min(PIECE as u64) as usize;
    let Ok(count) = source.read(&mut piece[..most]) else {
        return Err(Unread::Fault);
    };
    match waiting.add(&piece[..count]) {
        Ok(()) => Ok(count),
        Err(_) => Err(Unread::Memory),
    }
}

/// Answers the last line, if it has no line feed.
#[tactic(auto, using(crate::proofs::Steps::last_answered, crate::proofs::Steps::last_stopped))]
fn answer_last<R: Routes, O: Sink>(alloc: Global, sink: &mut O, routes: &R, line: &[u8]) -> Served
    requires { HasNoFeed line.now }
    ensures answered { IsAnswered (R.book routes.now) (O.held sink.old) (O.held sink.new) line.now result }
    ensures no_limit { result ≢ Served.Limit }
    ensures no_read { result ≢ Served.ReadFault }
    ensures later { O.faulted sink.old ≤ O.faulted sink.new }
    ensures cause { result ≡ Served.WriteFault → Rose (O.faulted sink.old) (O.faulted sink.new) }
{
    if line.is_empty() {
        return Served::End;
    }
    match answer_line(alloc, sink, routes, line) {
        Ok(()) => Served::End,
        Err(stop) => served(stop),
    }
}

/// Serves an input: each line of the source is a request, which is answered by the routes, in the order of the lines.
///
/// A line goes to its line feed or to the end of the source; nothing after the last line feed is no line. It ends at the end of the source,
/// or at the first line that is no request. It always returns: `Served` has the causes.
pub fn serve<R: Routes, I: ByteSource, O: Sink>(
    alloc: Global,
    source: &mut I,
    sink: &mut O,
    routes: &R,
) -> Served
    ensures served { IsServed (R.book routes.now) (I.left source.old) (I.left source.new) (O.held sink.old) (O.held sink.new) result }
    ensures reads { I.faulted source.old ≤ I.faulted source.new }
    ensures read_fault { result ≡ Served.ReadFault → Rose (I.faulted source.old) (I.faulted source.new) }
    ensures writes { O.faulted sink.old ≤ O.faulted sink.new }
    ensures write_fault { result ≡ Served.WriteFault → Rose (O.faulted sink.old) (O.faulted sink.new) }
{
    let mut waiting = PendingBytes::new(alloc);
    let mut searched = 0;
    let mut taken = 0;
    while taken < MOST {
        match answer_waiting(alloc, sink, routes, &mut waiting, searched) {
            Ok(()) => {}
            Err(stop) => return served(stop),
        }
        searched = waiting.bytes().len();
        match read_more(source, &mut waiting, MOST - taken) {
            Ok(0) => return answer_last(alloc, sink, routes, waiting.bytes()),
            Ok(count) => taken += count as u64,
            Err(Unread::Fault) => return Served::ReadFault,
            Err(Unread::Memory) => return Served::Memory,
        }
    }
    Served::Limit
}
