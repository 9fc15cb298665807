/// How a scan goes on next, with what came so far.
#[derive(Clone, Copy, Debug, PartialEq, Eq)]
pub enum NextStep {
    /// The first row in flight is whole or fails.
    Decide,
    /// The first item that waits goes into flight.
    Fill,
    /// The get, list or child list is accepted, asked again after a delay, or fails; or a get gave too many items.
    AcceptItems,
    AskItems { delay: u64 },
    RefuseItems,
    TooManyItems,
    /// The list of the next parent begins.
    BeginList,
    /// The parents call is accepted, asked again after a delay, or fails.
    AcceptParents,
    AskParents { delay: u64 },
    RefuseParents,
    /// Nothing is left.
    Finish,
    /// It waits for a piece.
    Wait,
}
