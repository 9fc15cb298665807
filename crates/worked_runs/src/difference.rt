use sqlite_items::Items;
use std::alloc::{AllocError, Global};

/// What came in another way than it has to, as lines.
#[derive(Drop)]
pub(crate) struct Differences {
    alloc: Global,
    pub(crate) lines: Items<String>,
}

fn shown(bytes: &[u8]) -> &str {
    match str::from_utf8(bytes) {
        Ok(text) => text,
        Err(_) => "bytes that are no text",
    }
}

impl Differences {
    pub(crate) fn none(alloc: Global) -> Differences {
        Differences {
            alloc,
            lines: Items::new(alloc),
        }
    }

    /// Compares texts.
    pub(crate) fn text(&mut self, what: &str, came: &[u8], want: &[u8]) -> Result<(), AllocError> {
        if came == want {
            return Ok(());
        }
        let came = shown(came);
        let want = shown(want);
        let line = format!(in self.alloc; "{what}: {came:?} came for {want:?}")?;
        self.lines.push(line)
    }

    /// Compares numbers.
    pub(crate) fn number(&mut self, what: &str, came: u64, want: u64) -> Result<(), AllocError> {
        if came == want {
            return Ok(());
        }
        let line = format!(in self.alloc; "{what}: {came} came for {want}")?;
        self.lines.push(line)
    }

    /// Compares lists of numbers.
    pub(crate) fn numbers(
        &mut self,
        what: &str,
        came: &[u64],
        want: &[u64],
    ) -> Result<(), AllocError> {
        if came == want {
            return Ok(());
        }
        let line = format!(in self.alloc; "{what}: {came:?} came for {want:?}")?;
        self.lines.push(line)
    }
}
