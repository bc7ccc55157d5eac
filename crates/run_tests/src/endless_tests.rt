//! A run of the program over a source that never ends.

ghost use Rattle.std.specs.Prelude.{◌≡◌, ◌≤◌, None, length, IfOk};
ghost use Rattle.rpc_record.specs.Stream.{counted, Reads};

use ff_run::run;
use node_link::{MemoryClock, SureLink};
use rpc_record::{Failed, Source, SureSink};
use std::test::Fail;
use store_disk::NoDisk;

/// A source of comments that never ends. Each is as long as a piece.
#[derive(Drop)]
struct Comments;

impl Source for Comments {
    ghost faults = { λ _. 0 };

    ghost left = { λ _. None };

    fn read(&mut self, piece: &mut [u8]) -> Result<usize, Failed>
        ensures within { IfOk result (λ n. n ≤ length piece.new) }
        ensures told { Reads None piece.new result None }
        ensures faults { 0 ≡ counted result 0 }
    {
        piece.fill(b'#');
        if let Some(last) = piece.last_mut() {
            *last = b'\n';
        }
        Ok(piece.len())
    }
}

#[test]
fn a_script_is_too_long(rt: HostRuntime) -> Result<(), Fail> {
    let words = vec![in rt.alloc(); String::from_str(rt.alloc(), "replay")?]?;
    let mut sink = SureSink::new(rt.alloc());
    let mut notes = SureSink::new(rt.alloc());
    let mut link = SureLink::new(rt.alloc(), Vec::new(rt.alloc()));
    let status = run(
        rt.alloc(),
        &words,
        &mut Comments,
        &mut sink,
        &mut notes,
        &mut NoDisk,
        &mut NoDisk,
        &mut link,
        &mut MemoryClock::new(Vec::new(rt.alloc())),
    );
    assert_eq!(rt; status, 9);
    assert_eq!(rt; sink.bytes(), b"".as_slice());
    assert_eq!(rt; notes.bytes(), b"limit 0\n".as_slice());
    Ok(())
}
