// A plugin's loop over a stream that is cut anywhere.

use crate::world::Scripted;
use plugin_kit::{Served, serve};
use sp_outside::{ByteSource, Failed, MemorySink, MemorySource};
use sqlite_items::Items;
use std::alloc::Global;
use std::test::Fail;

/// A source whose first read gives so many bytes at most, if not 0.
#[derive(Drop)]
struct CutSource {
    inner: MemorySource,
    cut: usize,
}

impl ByteSource for CutSource {
    ghost use Rattle.std.specs.Prelude.{Some};

    ghost left = { λ s. Some s.inner.left };

    ghost faulted = { λ s. s.inner.faults };

    fn read(&mut self, into: &mut [u8]) -> Result<usize, Failed> {
        let cut = self.cut;
        self.cut = 0;
        if cut == 0 || cut >= into.len() {
            return self.inner.read(into);
        }
        self.inner.read(&mut into[..cut])
    }

    fn faults(&self) -> u64 {
        self.inner.faults()
    }
}

fn source(alloc: Global, input: &str, cut: usize) -> Result<CutSource, Fail> {
    let bytes = Vec::from_slice(alloc, input.as_bytes())?;
    Ok(CutSource {
        inner: MemorySource::new(bytes, Items::new(alloc)),
        cut,
    })
}

const STREAM: &str = r#"{"connection":"c","id":1,"op":"version","tick":0}
{"attempt":1,"connection":"c","function":"f","id":2,"op":"parents","table":"t","version":7}
{"attempt":2,"conditions":[],"connection":"c","function":"f","id":3,"op":"get","table":"t","version":7}
"#;

const ANSWERS: &str = r#"{"id":1,"version":7}
{"id":2,"item":{}}
{"id":2,"item":{}}
{"end":true,"id":2}
{"error":"no","id":3}
"#;

#[test]
fn a_stream_is_answered_alike_wherever_it_is_cut(rt: HostRuntime) -> Result<(), Fail> {
    let alloc = rt.alloc();
    for cut in 0..STREAM.len() {
        let mut from = source(alloc, STREAM, cut)?;
        let mut to = MemorySink::new(alloc, 7, Items::new(alloc));
        let served = serve(alloc, &mut from, &mut to, &Scripted);
        assert!(rt; to.held() == ANSWERS.as_bytes(), "cut at {cut}");
        assert!(rt; matches!(served, Served::End));
    }
    Ok(())
}
