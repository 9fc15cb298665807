use call_jobs::Job;
use rate_gate::Permit;

/// What is picked for a connection: a job with its permit; or that none is due and granted, with the least tick at which one may be, where
/// there is such a tick; or want of memory.
pub enum Picked {
    Job(Job, Permit),
    NoneReady { next: Option<u64> },
    Memory,
}
