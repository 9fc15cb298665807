use crate::call_tags::CallTags;

/// What happened at a gate: a grant, numbered from 0, or the return of a grant. `sent` is false where no call was sent with it.
#[derive(Drop)]
pub enum Entry {
    Grant {
        number: u64,
        tags: CallTags,
        tick: u64,
    },
    Return {
        number: u64,
        tick: u64,
        sent: bool,
    },
}
