//! A socket that never waits.

ghost use Rattle.std.specs.Prelude.{◌≡◌, ◌↔◌, ◌⊎◌, ◌+◌, ◌≤◌, length, IfOk, None, Err};
ghost use Rattle.std.specs.IoError.{error_kind};
ghost use Rattle.record_link.specs.Stream.{lost_more};

use mio::net::TcpStream;
use record_link::{Halt, Stream};
use std::io::{self, Error, ErrorKind, IoSlice, Read, Write};

/// A socket that never waits. It tells nothing of its bytes.
#[derive(Drop)]
pub struct Socket {
    stream: TcpStream,
    faults: u64,
}

impl Socket {
    /// The socket of a stream that never waits.
    pub(crate) fn new(stream: TcpStream) -> Socket {
        Socket { stream, faults: 0 }
    }

    /// What an error of the system is, counted where the stream is of no use any more.
    fn halt(&mut self, error: &Error) -> Halt
        ensures blocks { (result ≡ Halt.WouldBlock) ↔ ((error_kind error.now ≡ ErrorKind.WouldBlock) ⊎ ((error_kind error.now ≡ ErrorKind.Interrupted) ⊎ (error_kind error.now ≡ ErrorKind.NotConnected))) }
        ensures either { (result ≡ Halt.WouldBlock) ⊎ (result ≡ Halt.Lost) }
        ensures counted { self.new.faults ≡ lost_more {T = Unit {0}} (Err result) self.old.faults }
    {
        let halt = halt_of(error.kind());
        if halt == Halt::Lost {
            self.faults = self.faults.saturating_add(1);
        }
        halt
    }
}

/// Writes from the front of one piece or of two, in one call of the system.
fn write_pieces(stream: &mut TcpStream, first: &[u8], second: &[u8]) -> io::Result<usize>
    ensures { IfOk result (λ n. n ≤ length first.now + length second.now) }
{
    if second.is_empty() {
        stream.write(first)
    } else {
        let pieces = [IoSlice::new(first), IoSlice::new(second)];
        // the stream's own: the one of `Write` sends the first piece alone
        TcpStream::write_vectored(stream, &pieces)
    }
}

impl Stream for Socket {
    ghost coming = { λ _. None };

    ghost gone = { λ _. None };

    ghost faults = { λ socket. socket.faults };

    fn read(&mut self, piece: &mut [u8]) -> Result<usize, Halt> {
        match self.stream.read(piece) {
            Ok(0) => Err(Halt::Ended),
            Ok(count) => Ok(count),
            Err(error) => Err(self.halt(&error)),
        }
    }

    fn write(&mut self, first: &[u8], second: &[u8]) -> Result<usize, Halt> {
        match write_pieces(&mut self.stream, first, second) {
            Ok(0) => Err(Halt::WouldBlock),
            Ok(count) => Ok(count),
            Err(error) => Err(self.halt(&error)),
        }
    }
}

/// What an error of this kind is: an interrupted call is made again, and so is one on a connection that is
/// still being made.
fn halt_of(kind: ErrorKind) -> Halt
    ensures blocks { (result ≡ Halt.WouldBlock) ↔ ((kind ≡ ErrorKind.WouldBlock) ⊎ ((kind ≡ ErrorKind.Interrupted) ⊎ (kind ≡ ErrorKind.NotConnected))) }
    ensures either { (result ≡ Halt.WouldBlock) ⊎ (result ≡ Halt.Lost) }
{
    if kind == ErrorKind::WouldBlock
        || kind == ErrorKind::Interrupted
        || kind == ErrorKind::NotConnected
    {
        Halt::WouldBlock
    } else {
        Halt::Lost
    }
}
