//! Sources and sinks over memory and over the readers and writers of `std::io`.

use rpc_record::{
    Failed, MemorySink, MemorySource, Sink, Source, StdSink, StdSource, SureSink, SureSource,
};
use std::process::Abort;
use std::test::Fail;

/// What a read of two bytes is answered, and the bytes of its piece then.
type Answer = (Result<usize, Failed>, [u8; 2]);

/// The bytes of each source.
const BYTES: [u8; 3] = [7, 8, 9];

/// What four reads are answered.
const WHOLE: [Answer; 4] = [
    (Ok(2), [7, 8]),
    (Ok(1), [9, 0]),
    (Ok(0), [0, 0]),
    (Ok(0), [0, 0]),
];

/// The same where the second call fails.
const FAILING: [Answer; 4] = [
    (Ok(2), [7, 8]),
    (Err(Failed::Fault), [0, 0]),
    (Ok(1), [9, 0]),
    (Ok(0), [0, 0]),
];

/// Reads are answered so.
fn gives<S: Source>(rt: &impl Abort, source: &mut S, answers: &[Answer]) {
    for (outcome, bytes) in answers {
        let mut piece = [0, 0];
        let found = source.read(&mut piece);
        assert!(rt; found == *outcome && piece == *bytes);
    }
}

#[test]
fn sources_give_their_bytes(rt: HostRuntime) -> Result<(), Fail> {
    let mut memory = MemorySource::new(BYTES.to_vec(rt.alloc())?, vec![in rt.alloc(); 2]?);
    gives(&rt, &mut memory, &FAILING);
    let mut sure = SureSource::new(BYTES.to_vec(rt.alloc())?);
    gives(&rt, &mut sure, &WHOLE);
    let mut standard = StdSource::new(BYTES.as_slice());
    gives(&rt, &mut standard, &WHOLE);
    Ok(())
}

#[test]
fn sinks_hold_their_bytes(rt: HostRuntime) -> Result<(), Fail> {
    let mut memory = MemorySink::new(rt.alloc(), vec![in rt.alloc(); 1]?);
    let failed = memory.write(&[7, 8]);
    let taken = memory.write(&[9]);
    assert!(rt; failed == Err(Failed::Fault) && taken == Ok(1));
    let mut sure = SureSink::new(rt.alloc());
    let mut standard = StdSink::new(Vec::new(rt.alloc()));
    let held = sure.write(&[7, 8]);
    let written = standard.write(&[7, 8]);
    assert!(rt; held == Ok(2) && written == Ok(2));
    assert!(rt; memory.bytes() == [9].as_slice() && sure.bytes() == [7, 8].as_slice());
    Ok(())
}
