use rate_gate::Used;
use sp_model::Seat;
use sp_outside::Loss;
use sp_world::{ToldLine, World};

/// What came in: what a line tells, for a seat of a session, and the grant of its call where the line ends it. It has no `Drop`, since
/// a grant hasn't.
pub struct Arrived<W: World> {
    pub seat: Seat,
    pub session: u32,
    pub told: ToldLine<W>,
    pub used: Option<Used>,
}

/// Why nothing came in: the child is lost, or memory is wanting; then a line that the child gave waits for the next try.
#[derive(Drop)]
pub enum RecvEnd {
    Lost(Loss),
    Memory,
}
