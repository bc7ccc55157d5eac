//! Runs of a small task over memory.

ghost use Rattle.std.specs.Prelude.{◌≡◌};
ghost use Rattle.run_tests.specs.Repeats.{repeat_asked};

use ff_xdr::{NoMemory, Out};
use line_runs::{LineStep, LineTask, RunEnd, run_lines};
use rpc_record::{MemorySink, MemorySource};
use std::alloc::Global;
use std::test::Fail;

/// How often a line asks for which byte.
fn repeat_asked(line: &[u8]) -> Option<(u8, u8)>
    ensures { result ≡ repeat_asked line.now }
{
    match line {
        [digit, blank, byte] => (*blank == b' ').then_some((digit.saturating_sub(48), *byte)),
        _ => None,
    }
}

/// Prints the bytes that lines ask for, one in a step and five in all, and then their number.
#[derive(Drop)]
struct Repeat {
    left: u8,
    byte: u8,
    printed: u8,
}

impl LineTask for Repeat {
    ghost use Rattle.std.specs.Prelude.{⊤, ℕ};
    ghost use Rattle.run_tests.specs.Repeats.{repeat_task, at_end_again};

    ghost BUDGET = { 16 };

    ghost State = { ℕ };

    ghost value = { λ task. repeat_task task.left task.byte task.printed };

    ghost fresh = { λ task. task.left ≡ 0 };

    ghost midway = { λ task. ⊤ };

    ghost leads = { λ start now text. ⊤ };

    ghost steps = { λ task. task.left };

    const BUDGET: usize = 16;

    fn count(&self) -> u64 {
        u64::from(self.printed)
    }

    fn play(&mut self, line: &[u8], _text: &mut Out) -> Result<LineStep, NoMemory> {
        match repeat_asked(line) {
            None => Ok(LineStep::Outside),
            Some((times, byte)) => {
                self.left = times;
                self.byte = byte;
                Ok(LineStep::More)
            }
        }
    }

    fn go_on(&mut self, text: &mut Out) -> Result<LineStep, NoMemory> {
        if self.left == 0 {
            return Ok(LineStep::Done);
        }
        if self.printed >= 5 {
            return Ok(LineStep::Limited(u64::from(self.printed)));
        }
        text.raw(&[self.byte])?;
        self.left -= 1;
        self.printed += 1;
        Ok(LineStep::More)
    }

    fn close(&mut self, text: &mut Out) -> Result<(), NoMemory> {
        text.raw(&[self.printed])
    }

    ghost ends = { λ task number fresh. at_end_again task.left task.byte task.printed number fresh };
}

/// Scripts, which calls of the source and of the sink fail, how their runs end, and what the sink gets;
/// no call has the number 0.
const RUNS: [(&str, u64, u64, RunEnd, &[u8]); 11] = [
    ("", 0, 0, RunEnd::Done, b"\0"),
    ("3 a\n2 b\n", 0, 0, RunEnd::Done, b"aaabb\x05"),
    ("3 a\n2 b", 0, 0, RunEnd::Done, b"aaabb\x05"),
    ("1 a\nno\n1 b\n", 0, 0, RunEnd::BadLine(2), b"a\x01"),
    ("3 a\n3 b\n1 c\n", 0, 0, RunEnd::Limit(5), b"aaabb\x05"),
    ("9 a", 0, 0, RunEnd::Limit(5), b"aaaaa\x05"),
    ("1 a\n1 b\n1 c\n0 d\n", 0, 0, RunEnd::Done, b"abc\x03"),
    ("1 a\n1 b\n1 c\n0 d\n\n", 0, 0, RunEnd::Limit(3), b"abc\x03"),
    ("1 a\n1", 2, 0, RunEnd::ReadFault, b"a"),
    ("1 a\n", 0, 1, RunEnd::WriteFault, b""),
    ("1 a\n", 0, 2, RunEnd::WriteFault, b"a"),
];

/// Runs the task over a script.
fn ran(
    alloc: Global,
    script: &str,
    unread: u64,
    unwritten: u64,
) -> Result<(RunEnd, MemorySink), Fail> {
    let mut task = Repeat {
        left: 0,
        byte: 0,
        printed: 0,
    };
    let mut source = MemorySource::new(script.as_bytes().to_vec(alloc)?, vec![in alloc; unread]?);
    let mut sink = MemorySink::new(alloc, vec![in alloc; unwritten]?);
    let end = run_lines(alloc, &mut task, &mut source, &mut sink);
    Ok((end, sink))
}

#[test]
fn lines_are_played_in_steps(rt: HostRuntime) -> Result<(), Fail> {
    for (script, unread, unwritten, wanted, text) in RUNS {
        let (end, sink) = ran(rt.alloc(), script, unread, unwritten)?;
        assert_eq!(rt; end, wanted);
        assert_eq!(rt; sink.bytes(), text);
    }
    Ok(())
}
