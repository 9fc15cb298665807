// The lines of connections under their names.

ghost use Rattle.std.specs.Prelude.{◌≡◌, ℕ, ◌≤◌, ◌<◌, ◌^◌, List, length, map, bytes_eq, slice_set, slice_index_or, IsOk, IfOk, IfErr, OnOk, OnErr};
ghost use Rattle.std.specs.List.{position_or_len};
ghost use Rattle.std.specs.Vec.{vec_len};
ghost use Rattle.rate_gate.specs.Journal.{last_tick};
ghost use Rattle.call_queue.specs.Lines.{with_job, with_room, emptied};
ghost use Rattle.call_queue.specs.Picking.{HasPicked};
ghost use Rattle.call_queue.specs.Queues.{line_of, KeepsOthers, KeepsAll, IsPlaceOf, forgotten};
ghost use Rattle.call_queue.specs.declared.lines.NamedLine.{NamedLine};

use crate::line::Line;
use crate::picked::Picked;
use call_jobs::Job;
use rate_gate::Gate;
use sp_value::{Memory, Text, TryCopy};
use std::alloc::Global;

/// The line of a connection, under its name.
#[derive(Drop)]
pub(crate) struct NamedLine {
    pub name: Text,
    pub line: Line,
}

/// The place of the first line of a name, or how many lines there are.
fn place_of(lines: &[NamedLine], name: &Text) -> usize
    ensures place { result ≡ position_or_len (λ n. bytes_eq n.name name.now) lines.now }
    ensures within { result ≤ length lines.now }
{
    for (index, named) in lines.iter().enumerate() {
        if named.name == *name {
            return index;
        }
    }
    lines.len()
}

/// The place of the line of a name; an empty one is put at the end where there is none.
pub(crate) fn find_or_add(
    alloc: Global,
    lines: &mut Vec<NamedLine>,
    name: &Text,
) -> Result<usize, Memory>
    ensures place { IfOk result (IsPlaceOf lines.new.items name.now) }
    ensures lines { KeepsAll lines.old.items lines.new.items }
    ensures room { 0 < (line_of lines.old.items name.now).room → IsOk result }
{
    let place = place_of(lines.as_slice(), name);
    if place == lines.len() {
        let name = name.copy(alloc)?;
        let line = Line::empty(alloc);
        lines.push(NamedLine { name, line })?;
    }
    Ok(place)
}

/// Puts a job into the line at a place.
pub(crate) fn push_at(lines: &mut [NamedLine], place: usize, job: Job) -> Result<(), Job>
    requires { IsPlaceOf lines.old job.tags.connection place }
    ensures ok { OnOk result (line_of lines.new job.tags.connection ≡ with_job job (line_of lines.old job.tags.connection)) }
    ensures job { IfErr result (λ back. back ≡ job) }
    ensures err { OnErr result (KeepsAll lines.old lines.new) }
    ensures others { KeepsOthers job.tags.connection lines.old lines.new }
    ensures room { 0 < (line_of lines.old job.tags.connection).room → IsOk result }
{
    lines[place].line.push(job)
}

/// Makes room for more jobs in the line at a place.
pub(crate) fn reserve_at(lines: &mut [NamedLine], place: usize, more: u32) -> Result<(), Memory>
    requires { place < length lines.old }
    ensures ok { OnOk result ((name : List ℕ) → IsPlaceOf lines.old name place → (line_of lines.new name ≡ with_room more (line_of lines.old name)) × KeepsOthers name lines.old lines.new) }
    ensures err { OnErr result (KeepsAll lines.old lines.new) }
{
    lines[place].line.reserve(more)
}

/// Picks of the line at a place.
fn pick_at(
    alloc: Global,
    lines: &mut [NamedLine],
    place: usize,
    gate: &mut Gate,
    tick: u64,
) -> Picked
    requires within { place < length lines.old }
    requires since { last_tick gate.old.journal ≤ tick }
    requires range { tick ≤ 2 ^ 62 }
    ensures picked { (name : List ℕ) → IsPlaceOf lines.old name place → HasPicked gate.old tick (line_of lines.old name) result (line_of lines.new name) gate.new }
    ensures others { (name : List ℕ) → IsPlaceOf lines.old name place → KeepsOthers name lines.old lines.new }
{
    lines[place].line.pick(alloc, gate, tick)
}

/// Drops the jobs of the line at a place.
fn clear_at(lines: &mut [NamedLine], place: usize)
    requires { place < length lines.old }
    ensures { (name : List ℕ) → IsPlaceOf lines.old name place → (line_of lines.new name ≡ emptied (line_of lines.old name)) × KeepsOthers name lines.old lines.new }
{
    lines[place].line.clear();
}

fn forget_at(lines: &mut [NamedLine], place: usize, session: u32)
    requires { place < length lines.old }
    ensures { (d : NamedLine) → lines.new ≡ slice_set lines.old place (forgotten session (slice_index_or lines.old place d)) }
{
    lines[place].line.forget(session);
}

/// Picks of the line of a name.
pub(crate) fn pick_named(
    alloc: Global,
    lines: &mut [NamedLine],
    name: &Text,
    gate: &mut Gate,
    tick: u64,
) -> Picked
    requires since { last_tick gate.old.journal ≤ tick }
    requires range { tick ≤ 2 ^ 62 }
    ensures picked { HasPicked gate.old tick (line_of lines.old name.now) result (line_of lines.new name.now) gate.new }
    ensures others { KeepsOthers name.now lines.old lines.new }
{
    let place = place_of(lines, name);
    if place == lines.len() {
        return Picked::NoneReady { next: None };
    }
    pick_at(alloc, lines, place, gate, tick)
}

/// Drops the jobs of the line of a name.
pub(crate) fn clear_named(lines: &mut [NamedLine], name: &Text)
    ensures line { line_of lines.new name.now ≡ emptied (line_of lines.old name.now) }
    ensures others { KeepsOthers name.now lines.old lines.new }
{
    let place = place_of(lines, name);
    if place < lines.len() {
        clear_at(lines, place);
    }
}

/// Drops the jobs of a session in each line.
pub(crate) fn forget_all(lines: &mut [NamedLine], session: u32)
    ensures { lines.new ≡ map (forgotten session) lines.old }
{
    for k in 0..lines.len() {
        forget_at(lines, k, session);
    }
}
