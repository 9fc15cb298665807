/// What an error means for its call.
#[derive(Clone, Copy, Debug, PartialEq, Eq)]
pub enum Verdict {
    /// It ends the call as an end does.
    Ignore,
    /// The call is asked again, not before so many ticks after this ending was taken in.
    Again { delay: u64 },
    /// The call fails.
    Fail,
}
