//! Lines that are read through a buffer.

use line_runs::{Ended, LineBuffer, line_laws};
use rpc_record::{Failed, MemorySource, Source, SureSource};
use std::alloc::Global;
use std::process::Abort;
use std::test::Fail;

/// How many bytes a line may have, what reading it is answered, and the line then.
type Reading = (usize, Result<Ended, Failed>, &'static [u8]);

/// Lines are read within a budget.
const WITHIN: [Reading; 7] = [
    (2, Ok(Ended::PastBudget), b""),
    (3, Ok(Ended::Newline), b"ab"),
    (1, Ok(Ended::Newline), b""),
    (9, Ok(Ended::Newline), b"longer"),
    (2, Ok(Ended::PastBudget), b""),
    (3, Ok(Ended::End), b"end"),
    (0, Ok(Ended::End), b""),
];

/// A fault loses no byte.
const FAILING: [Reading; 3] = [
    (9, Err(Failed::Fault), b""),
    (9, Err(Failed::Fault), b"ab"),
    (9, Ok(Ended::End), b""),
];

/// The lines of a source are read so, one after the other.
fn reads<S: Source>(
    rt: &impl Abort,
    alloc: Global,
    source: &mut S,
    readings: &[Reading],
) -> Result<(), Fail> {
    let mut buffer = LineBuffer::new(alloc)?;
    let mut line = Vec::new(alloc);
    for (budget, ended, bytes) in readings {
        let found = buffer.read_line(source, *budget, &mut line);
        assert!(rt; found == *ended && line.as_slice() == *bytes);
    }
    Ok(())
}

#[test]
fn lines(rt: HostRuntime) -> Result<(), Fail> {
    line_laws();
    let mut sure = SureSource::new(b"ab\n\nlonger\nend".to_vec(rt.alloc())?);
    reads(&rt, rt.alloc(), &mut sure, &WITHIN)?;
    let mut failing = MemorySource::new(b"ab".to_vec(rt.alloc())?, vec![in rt.alloc(); 1, 3]?);
    reads(&rt, rt.alloc(), &mut failing, &FAILING)
}
