ghost use Rattle.std.specs.Prelude.{◌≡◌, IfSome, IfErr};
ghost use Rattle.desk.specs.Posted.{IsKnown};

use call_jobs::Job;
use desk::Mail;
use sp_model::Seat;
use sp_world::{ToldLine, World};
use std::collections::VecDeque;

/// What is told for a seat.
#[derive(Drop)]
pub(crate) struct Post<W: World> {
    pub(crate) seat: Seat,
    pub(crate) told: ToldLine<W>,
}

/// What a session isn't told yet: what was told for its seats, and the places, among the connections that are gone, of those that it asked
/// for.
#[derive(Drop)]
pub(crate) struct Posts<W: World> {
    pub(crate) pieces: VecDeque<Post<W>>,
    pub(crate) news: VecDeque<usize>,
}

/// The next of what a session isn't told yet: first what was told for its seats.
pub(crate) fn next_mail<W: World>(posts: &mut Posts<W>, gone: &[(u32, u32)]) -> Option<Mail<W>>
    ensures { IfSome result (IsKnown gone.now) }
{
    if let Some(Post { seat, told }) = posts.pieces.pop_front() {
        return Some(Mail::Piece { seat, told });
    }
    let place = posts.news.pop_front()?;
    mail_at(gone, place)
}

/// That the connection at a place is gone.
fn mail_at<W: World>(gone: &[(u32, u32)], place: usize) -> Option<Mail<W>>
    ensures { IfSome result (IsKnown gone.now) }
{
    if place < gone.len() {
        let (connection, losses) = gone[place];
        return Some(Mail::Gone { connection, losses });
    }
    None
}

/// Has the session be told that a connection is gone, in place of a job. The job is handed back for want of memory alone.
pub(crate) fn post_gone<W: World>(
    posts: &mut Posts<W>,
    gone: &[(u32, u32)],
    number: u32,
    job: Job,
) -> Result<(), Job>
    ensures { IfErr result (λ back. back ≡ job) }
{
    match gone.iter().position(|found| found.0 == number) {
        Some(place) => match posts.news.push_back(place) {
            Ok(()) => Ok(()),
            Err(_) => Err(job),
        },
        None => Err(job),
    }
}
