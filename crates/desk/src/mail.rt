use sp_model::Seat;
use sp_world::{ToldLine, World};

/// What a session is told: a line for a seat, or that a connection is gone after so many losses, by its number, from 0, among the plain
/// connections of the settings.
#[derive(Drop)]
pub enum Mail<W: World> {
    Piece { seat: Seat, told: ToldLine<W> },
    Gone { connection: u32, losses: u32 },
}
