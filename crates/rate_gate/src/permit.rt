ghost use Rattle.std.specs.Prelude.{◌≡◌};

use crate::call_tags::CallTags;

/// A grant that no call was sent with yet. It has no `Drop`: it is spent by a send, or handed back to its gate.
pub struct Permit {
    number: u64,
    tags: CallTags,
}

/// A grant that a call was sent with. It has no `Drop`: it is given back to its gate.
pub struct Used {
    number: u64,
    tags: CallTags,
}

impl Permit {
    pub(crate) fn new(number: u64, tags: CallTags) -> Permit
        ensures number { result.number ≡ number }
        ensures tags { result.tags ≡ tags }
    {
        Permit { number, tags }
    }

    /// The grant, once a call was sent with it.
    pub fn into_used(self) -> Used
        ensures number { result.number ≡ self.number }
        ensures tags { result.tags ≡ self.tags }
    {
        let Permit { number, tags } = self;
        Used { number, tags }
    }

    pub(crate) fn into_parts(self) -> (u64, CallTags)
        ensures number { result.0 ≡ self.number }
        ensures tags { result.1 ≡ self.tags }
    {
        let Permit { number, tags } = self;
        (number, tags)
    }

    /// The number of the grant in the journal.
    pub fn number(&self) -> u64
        ensures { result ≡ self.now.number }
    {
        self.number
    }

    /// The tags that the grant was asked for.
    pub fn tags(&self) -> &CallTags
        ensures { result.now ≡ self.now.tags }
    {
        &self.tags
    }
}

impl Used {
    pub(crate) fn into_parts(self) -> (u64, CallTags)
        ensures number { result.0 ≡ self.number }
        ensures tags { result.1 ≡ self.tags }
    {
        let Used { number, tags } = self;
        (number, tags)
    }

    /// The number of the grant in the journal.
    pub fn number(&self) -> u64
        ensures { result ≡ self.now.number }
    {
        self.number
    }

    /// The tags that the grant was asked for.
    pub fn tags(&self) -> &CallTags
        ensures { result.now ≡ self.now.tags }
    {
        &self.tags
    }
}
