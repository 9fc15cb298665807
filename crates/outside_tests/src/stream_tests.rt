// Sources, sinks and clocks.

use sp_outside::{
    ByteSource, Clock, ClockPass, MemoryClock, MemorySink, MemorySource, ReadEnd, Sink,
    read_to_limit, write_all,
};
use sqlite_items::Items;
use std::test::Fail;
use std_streams::{ReaderSource, WriterSink};

#[test]
fn a_source_is_read_to_its_end_up_to_the_limit(rt: HostRuntime) -> Result<(), Fail> {
    let alloc = rt.alloc();
    for (limit, whole) in [(6, true), (5, false)] {
        let mut source = MemorySource::new(Vec::from_slice(alloc, b"abcdef")?, Items::new(alloc));
        let read = read_to_limit(alloc, &mut source, limit);
        match read {
            Ok(bytes) => assert!(rt; whole && bytes.as_slice() == b"abcdef".as_slice()),
            Err(end) => assert!(rt; !whole && end == ReadEnd::TooLong),
        }
        assert_eq!(rt; source.left().len(), 0);
    }
    let fails = Items::from_slice(alloc, &[0])?;
    let mut source = MemorySource::new(Vec::from_slice(alloc, b"abc")?, fails);
    assert!(rt; read_to_limit(alloc, &mut source, 3).is_err());
    assert_eq!(rt; source.faults(), 1);
    let bytes = read_to_limit(alloc, &mut source, 3)
        .ok()
        .ok_or("a source read again")?;
    assert!(rt; bytes.as_slice() == b"abc".as_slice());
    Ok(())
}

#[test]
fn a_sink_holds_a_beginning_after_a_fault(rt: HostRuntime) -> Result<(), Fail> {
    let alloc = rt.alloc();
    let mut sink = MemorySink::new(alloc, 2, Items::from_slice(alloc, &[2])?);
    assert!(rt; write_all(&mut sink, b"abcdef").is_err());
    assert!(rt; sink.held() == b"abcd".as_slice());
    assert_eq!(rt; sink.faults(), 1);
    write_all(&mut sink, b"ef")?;
    assert!(rt; sink.held() == b"abcdef".as_slice());
    Ok(())
}

fn ticks<C: Clock>(clock: &C, pass: &mut ClockPass) -> [u64; 5] {
    let first = clock.now(pass);
    let waited = clock.wait_until(pass, 200);
    let passed = clock.wait_until(pass, 150);
    let later = clock.now(pass);
    [first, waited, passed, later, clock.now(pass)]
}

#[test]
fn a_clock_advances_by_the_number_of_the_reading(rt: HostRuntime) -> Result<(), Fail> {
    let advances = Items::from_slice(rt.alloc(), &[5, 1, 1, 7])?;
    let mut pass = ClockPass {
        readings: 0,
        latest: 0,
    };
    let read = ticks(&MemoryClock::new(100, advances), &mut pass);
    assert!(rt; read == [105, 200, 200, 207, 207]);
    assert!(rt;
        pass == ClockPass {
            readings: 5,
            latest: 207
        }
    );
    Ok(())
}

#[test]
fn a_slice_is_read_whole_and_a_vector_takes_all(rt: HostRuntime) -> Result<(), Fail> {
    let alloc = rt.alloc();
    let mut source = ReaderSource::new(b"one line\n".as_slice());
    let bytes = read_to_limit(alloc, &mut source, 9)
        .ok()
        .ok_or("the whole source")?;
    let mut sink = WriterSink::new(Vec::new(alloc));
    assert!(rt; write_all(&mut sink, &bytes).is_ok());
    assert!(rt; bytes.as_slice() == b"one line\n".as_slice());
    Ok(())
}
