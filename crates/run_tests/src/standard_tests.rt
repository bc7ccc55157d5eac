//! Sources and sinks over readers and writers that fail.

ghost use Rattle.std.specs.Prelude.{◌≤◌};
ghost use Rattle.std.specs.Result.{IfOk};

use rpc_record::{Failed, Sink, Source, StdSink, StdSource};
use std::io::{self, ErrorKind, Read, Write};
use std::test::Fail;

/// What a call of a reader or a writer is answered.
#[derive(Clone, Copy)]
enum Answer {
    /// So many bytes, or as many as the piece has.
    Bytes(usize),
    Fails(ErrorKind),
}

/// Answers one call after another, and says `BrokenPipe` behind the last.
#[derive(Drop)]
struct Answers<'a> {
    rest: &'a [Answer],
}

impl Answers<'_> {
    fn next(&mut self, room: usize) -> io::Result<usize>
        ensures { IfOk result (λ n. n ≤ room) }
    {
        let Some((first, rest)) = self.rest.split_first() else {
            return Err(ErrorKind::BrokenPipe.into());
        };
        self.rest = rest;
        match *first {
            Answer::Bytes(count) => Ok(count.min(room)),
            Answer::Fails(kind) => Err(kind.into()),
        }
    }
}

#[derive(Drop)]
struct Reader<'a> {
    answers: Answers<'a>,
}

impl Read for Reader<'_> {
    fn read(&mut self, piece: &mut [u8]) -> io::Result<usize> {
        self.answers.next(piece.len())
    }
}

/// Counts its flushes, of which the first is interrupted.
#[derive(Drop)]
struct Writer<'a> {
    answers: Answers<'a>,
    flushes: &'a mut u32,
}

impl Write for Writer<'_> {
    fn write(&mut self, piece: &[u8]) -> io::Result<usize> {
        self.answers.next(piece.len())
    }

    fn flush(&mut self) -> io::Result<()> {
        *self.flushes = self.flushes.saturating_add(1);
        if *self.flushes == 1 {
            return Err(ErrorKind::Interrupted.into());
        }
        Ok(())
    }
}

#[test]
fn readers(rt: HostRuntime) -> Result<(), Fail> {
    let interrupted = Answer::Fails(ErrorKind::Interrupted);
    let table: [(&[Answer], Result<usize, Failed>); 6] = [
        (&[Answer::Bytes(2)], Ok(2)),
        (&[Answer::Bytes(0)], Ok(0)),
        (&[interrupted, interrupted, Answer::Bytes(1)], Ok(1)),
        (
            &[Answer::Fails(ErrorKind::OutOfMemory)],
            Err(Failed::NoMemory),
        ),
        (
            &[interrupted, Answer::Fails(ErrorKind::Other)],
            Err(Failed::Fault),
        ),
        (&[], Err(Failed::Fault)),
    ];
    for (rest, want) in table {
        let mut piece = [0; 4];
        let mut source = StdSource::new(Reader {
            answers: Answers { rest },
        });
        assert_eq!(rt; source.read(&mut piece), want);
    }
    Ok(())
}

#[test]
fn writers(rt: HostRuntime) -> Result<(), Fail> {
    let interrupted = Answer::Fails(ErrorKind::Interrupted);
    // what is taken is flushed, and an interrupted flush is made again
    let table: [(&[Answer], Result<usize, Failed>, u32); 5] = [
        (&[Answer::Bytes(3)], Ok(3), 2),
        (&[interrupted, Answer::Bytes(1)], Ok(1), 2),
        (&[Answer::Bytes(0)], Err(Failed::Fault), 0),
        (
            &[Answer::Fails(ErrorKind::OutOfMemory)],
            Err(Failed::NoMemory),
            0,
        ),
        (&[], Err(Failed::Fault), 0),
    ];
    for (rest, want, want_flushes) in table {
        let mut flushes = 0;
        let mut sink = StdSink::new(Writer {
            answers: Answers { rest },
            flushes: &mut flushes,
        });
        assert_eq!(rt; sink.write(b"abc"), want);
        drop(sink);
        assert_eq!(rt; flushes, want_flushes);
    }
    Ok(())
}
