ghost use Rattle.std.specs.Prelude.{◌≡◌, ◌<◌, [], Some, length, map, slice_get, IfSome, OnOk, vec_len, vec_capacity};
ghost use Rattle.std.specs.VecDeque.{deque_len, deque_capacity};
ghost use Rattle.std.proofs.Props.{props};
ghost use Rattle.call_jobs.specs.Jobs.{asked_by, function_by};
ghost use Rattle.sp_world.specs.RequestLines.{IsAskedForm};
ghost use Rattle.plain_desk.specs.Hearing.{MayHearAt};
ghost use Rattle.plain_desk.specs.Lost.{HasLost, KeepGone, AreGone};
ghost use Rattle.plain_desk.specs.Slots.{AreBeside, plain_names};

use crate::posts::{Post, Posts, next_mail, post_gone};
use crate::running::{Ran, forget_all, run_slots};
use crate::session_clock::SessionClock;
use crate::slot::Slot;
use call_jobs::Job;
use desk::{Desk, Driven, Mail};
use sp_model::{Connection, ScanRequest, Settings};
use sp_outside::{Child, Clock};
use sp_value::{Memory, Text};
use sp_world::{Kept, World};
use std::alloc::Global;
use std::collections::VecDeque;
use std::sync::Arc;

/// A desk over one slot for each plain connection of the settings, in their order. It keeps no scan. All that it tells of its steps is that
/// the slots keep their connections; a connection is gone only where the child of its slot was lost.
pub struct PlainDesk<'a, W: World, C: Child<W>, K: Clock> {
    alloc: Global,
    settings: Settings,
    session: u32,
    slots: Vec<Slot<W, C>>,
    clock: SessionClock<'a, K>,
    scans: u64,
    gone: Vec<(u32, u32)>,
    posts: Posts<W>,
    turn: usize,
    pub ghost own: { AreBeside C.connection slots.items settings.connections },
    pub ghost lost: { AreGone (HasLost W.tells W.book C.faulted C.gives) slots.items gone.items } by { Prim.hlevel props },
}

/// The place of a name among the plain connections.
fn plain_place(connections: &[Connection], name: &Text) -> Option<usize>
    ensures { IfSome result (λ place. slice_get (plain_names connections.now) place ≡ Some name.now) }
{
    let mut place: usize = 0;
    for connection in connections {
        if connection.aggregator {
            continue;
        }
        if connection.name == *name {
            return Some(place);
        }
        place = place.saturating_add(1);
    }
    None
}

/// Has a job wait at a place.
fn wait_at<W: World, C: Child<W>>(
    alloc: Global,
    slots: &mut Vec<Slot<W, C>>,
    at: usize,
    job: Job,
) -> Result<(), Job>
    requires within { at < length slots.old.items }
    requires form { IsAskedForm (function_by job) (asked_by job) }
    requires may { MayHearAt W.tells W.book C.connection slots.old.items at job }
    ensures own { map (λ s. C.connection s.link.child) slots.new.items ≡ map (λ s. C.connection s.link.child) slots.old.items }
    ensures gone { KeepGone (HasLost W.tells W.book C.faulted C.gives) slots.old.items slots.new.items }
{
    let slot = &mut slots[at];
    slot.submit(alloc, job)
}

/// Hands a job to the slot at a place, or has the session be told that its child is gone.
fn submit_at<W: World, C: Child<W>>(
    alloc: Global,
    slots: &mut Vec<Slot<W, C>>,
    gone: &[(u32, u32)],
    posts: &mut Posts<W>,
    place: usize,
    job: Job,
) -> Result<(), Job>
    requires form { IsAskedForm (function_by job) (asked_by job) }
    requires may { MayHearAt W.tells W.book C.connection slots.old.items place job }
    ensures own { map (λ s. C.connection s.link.child) slots.new.items ≡ map (λ s. C.connection s.link.child) slots.old.items }
    ensures gone { KeepGone (HasLost W.tells W.book C.faulted C.gives) slots.old.items slots.new.items }
{
    if place >= slots.len() {
        return Err(job);
    }
    if !slots[place].is_gone() {
        return wait_at(alloc, slots, place, job);
    }
    match u32::try_from(place) {
        Ok(number) => post_gone(posts, gone, number, job),
        Err(_) => Err(job),
    }
}

/// Makes room for what one drive may have to tell.
fn make_room<W: World>(gone: &mut Vec<(u32, u32)>, posts: &mut Posts<W>) -> Result<(), Memory>
    ensures gone { gone.new.items ≡ gone.old.items }
    ensures room { OnOk result (vec_len gone.new < vec_capacity gone.new) }
    ensures pieces { OnOk result (deque_len posts.new.pieces < deque_capacity posts.new.pieces) }
    ensures news { OnOk result (deque_len posts.new.news < deque_capacity posts.new.news) }
{
    gone.reserve(1)?;
    posts.pieces.reserve(1)?;
    posts.news.reserve(1)?;
    Ok(())
}

impl<'a, W: World, C: Child<W>, K: Clock> PlainDesk<'a, W, C, K> {
    /// The desk of a session over slots, one for each plain connection of the settings, in their order.
    pub fn over(
        alloc: Global,
        settings: Settings,
        session: u32,
        slots: Vec<Slot<W, C>>,
        clock: &'a K,
    ) -> PlainDesk<'a, W, C, K>
        requires own { AreBeside C.connection slots.items settings.connections }
        ensures settings { result.settings ≡ settings }
        ensures slots { result.slots ≡ slots }
        ensures none { (result.clock.tick ≡ 0) × (result.scans ≡ 0) × (result.gone.items ≡ []) }
    {
        PlainDesk {
            alloc,
            settings,
            session,
            slots,
            clock: SessionClock::of(clock),
            scans: 0,
            gone: Vec::new(alloc),
            posts: Posts {
                pieces: VecDeque::new(alloc),
                news: VecDeque::new(alloc),
            },
            turn: 0,
        }
    }

    /// The slots, in the order in which they were handed in. Each connection that is gone has its slot there, which lost its child once.
    pub fn into_slots(self) -> Vec<Slot<W, C>>
        ensures slots { result ≡ self.entry.slots }
        ensures own { AreBeside C.connection result.items self.entry.settings.connections }
        ensures gone { AreGone (HasLost W.tells W.book C.faulted C.gives) result.items self.entry.gone.items }
    {
        let PlainDesk {
            alloc: _,
            settings,
            session: _,
            slots,
            clock,
            scans: _,
            gone,
            posts,
            turn: _,
        } = self;
        drop(settings);
        drop(clock);
        drop(gone);
        drop(posts);
        slots
    }
}

impl<'a, W: World, C: Child<W>, K: Clock> Desk<W> for PlainDesk<'a, W, C, K> {
    ghost use Rattle.std.specs.Prelude.{◌≡◌, map};

    ghost state = { λ d. record { settings = d.settings; tick = d.clock.tick; scans = d.scans; gone = d.gone.items } };

    ghost does = { λ old _ new. map (λ s. C.connection s.link.child) new.slots.items ≡ map (λ s. C.connection s.link.child) old.slots.items };

    fn now(&mut self) -> u64 {
        self.clock.read()
    }

    fn next_scan(&mut self) -> u64 {
        self.scans = self.scans.saturating_add(1);
        self.scans
    }

    fn submit(&mut self, job: Job) -> Result<(), Job> {
        let place = plain_place(self.settings.connections.as_slice(), job.connection());
        let Some(place) = place else {
            return Err(job);
        };
        let mut job = job;
        job.session = self.session;
        self.turn = place;
        submit_at(
            self.alloc,
            &mut self.slots,
            &self.gone,
            &mut self.posts,
            place,
            job,
        )
    }

    fn take_mail(&mut self) -> Option<Mail<W>> {
        next_mail(&mut self.posts, &self.gone)
    }

    fn drive(&mut self) -> Driven {
        let Ok(()) = make_room(&mut self.gone, &mut self.posts) else {
            return Driven::Memory;
        };
        let tick = self.clock.present();
        match run_slots(self.alloc, &mut self.slots, self.turn, tick) {
            Ran::Told { seat, told } => {
                self.posts.pieces.push_back_reserved(Post { seat, told });
                Driven::Moved
            }
            Ran::Lost(place) => {
                let Ok(number) = u32::try_from(place) else {
                    return Driven::Memory;
                };
                self.posts.news.push_back_reserved(self.gone.len());
                self.gone.push_reserved((number, 1));
                Driven::Moved
            }
            Ran::Idle(Some(due)) => {
                self.clock.wait(due);
                Driven::Moved
            }
            Ran::Idle(None) => Driven::Moved,
            Ran::Memory => Driven::Memory,
        }
    }

    fn look(&mut self, _request: &ScanRequest) -> Result<Option<Arc<Kept<W>, Global>>, Memory> {
        Ok(None)
    }

    fn keep_scan(&mut self, _kept: &Arc<Kept<W>, Global>) -> Result<(), Memory> {
        Ok(())
    }

    fn clear(&mut self) {}

    fn end_statement(&mut self) {
        forget_all(&mut self.slots);
    }
}
