/// How far a child is: not started, running, or gone after a loss.
#[derive(Clone, Copy, Debug, PartialEq, Eq)]
pub enum Stage {
    Unstarted,
    Running,
    Gone,
}
