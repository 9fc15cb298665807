use crate::stage::Stage;
use child_link::{Link, Prepared};
use rate_gate::Gate;
use sp_outside::Child;
use sp_world::World;

/// A child with its open calls, a gate without limiters, the calls that wait, how far the child is, and the latest tick that it was given.
pub struct SlotParts<W: World, C: Child<W>> {
    pub link: Link<W, C>,
    pub gate: Gate,
    pub waiting: Vec<Prepared>,
    pub stage: Stage,
    pub tick: u64,
}
