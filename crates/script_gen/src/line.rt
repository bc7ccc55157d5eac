//! A drawn line of a script.

ghost use Rattle.std.specs.Prelude.{◌≡◌, ◌∷◌, [], ◌++◌, codes, decimal};
ghost use Rattle.ff_xdr.specs.Calls.{Puts, Grows};
ghost use Rattle.hex.specs.Hex.{encode_lower};
ghost use Rattle.script_gen.specs.Generated.{FillLine, states_on, drawn_line, draws_of, line_text};
ghost use Rattle.script_gen.specs.DrawnValue.{drawn_value};

use crate::draws::Draws;
use ff_xdr::{NoMemory, Out};
use journal_print::put_numbered;

/// So many clients and data servers a script has.
const MACHINES: u32 = 4;

/// So many files it has.
const FILES: u32 = 2;

/// A place in a file is below this.
const PLACES: u32 = 4096;

/// So many bytes a request has at most.
const MOST_BYTES: u32 = 256;

/// A drawn line of a script.
#[derive(Clone, Copy)]
pub enum DrawnLine {
    /// A client writes so many equal bytes at a place.
    Fill {
        client: u32,
        at: u32,
        count: u32,
        byte: u8,
    },
    /// A client commits.
    Commit {
        client: u32,
    },
    /// A client gives its layout back.
    Return {
        client: u32,
    },
    /// A client reads so many bytes at a place.
    Read {
        client: u32,
        at: u32,
        count: u32,
    },
    /// A file's layout is recalled.
    Recall {
        file: u32,
    },
    /// So many seconds pass.
    Tick {
        seconds: u32,
    },
    /// A data server starts again.
    Restart {
        server: u32,
    },
    /// The metadata server's oldest call to a data server times out.
    TimeoutOfMds {
        server: u32,
    },
    /// A client's oldest call to a data server times out.
    TimeoutOfClient {
        client: u32,
        server: u32,
    },
    /// Mirrors are added to a file.
    Resilver {
        file: u32,
    },
    /// The packet of this number comes.
    Deliver {
        packet: u32,
    },
    /// Packets that never came come, until there is none.
    Flow,
}

impl Draws {
    /// The next line.
    #[tactic(auto, unfolding(crate::specs::Generated::drawn_line))]
    pub fn line(&mut self) -> DrawnLine
        ensures drawn { drawn_value result ≡ drawn_line self.old }
        ensures on { self.new ≡ states_on (draws_of (drawn_value result)) self.old }
    {
        match self.draw(20) {
            0..=5 => DrawnLine::Fill {
                client: self.number(MACHINES),
                at: self.draw(PLACES),
                count: self.number(MOST_BYTES),
                byte: self.draw(256) as u8,
            },
            6..=8 => DrawnLine::Commit {
                client: self.number(MACHINES),
            },
            9 => DrawnLine::Return {
                client: self.number(MACHINES),
            },
            10 => DrawnLine::Read {
                client: self.number(MACHINES),
                at: self.draw(PLACES),
                count: self.number(MOST_BYTES),
            },
            11 => DrawnLine::Recall {
                file: self.number(FILES),
            },
            12 => DrawnLine::Tick {
                seconds: self.number(30),
            },
            13 => DrawnLine::Restart {
                server: self.number(MACHINES),
            },
            14 => DrawnLine::TimeoutOfMds {
                server: self.number(MACHINES),
            },
            15 => DrawnLine::TimeoutOfClient {
                client: self.number(MACHINES),
                server: self.number(MACHINES),
            },
            16 => DrawnLine::Resilver {
                file: self.number(FILES),
            },
            17 => DrawnLine::Deliver {
                packet: self.number(200),
            },
            _ => DrawnLine::Flow,
        }
    }
}

/// Appends two hexadecimal digits.
fn put_byte(byte: u8, out: &mut Out) -> Result<(), NoMemory>
    ensures { Puts out.old result out.new (encode_lower (byte ∷ [])) }
{
    let mut digits = [0; 2];
    let _ = hex::encode_to_slice([byte], &mut digits);
    out.raw(&digits)
}

/// Appends a text, a number and the line's end.
fn put_end(text: &[u8], number: u32, out: &mut Out) -> Result<(), NoMemory>
    ensures { Grows out.old result out.new (text.now ++ decimal number ++ codes "\n") }
{
    put_numbered(text, u64::from(number), out)?;
    out.raw(b"\n")
}

/// Appends the line of a write of equal bytes.
fn put_fill(client: u32, at: u32, count: u32, byte: u8, out: &mut Out) -> Result<(), NoMemory>
    ensures { Grows out.old result out.new (line_text (FillLine client at count byte)) }
{
    put_numbered(b"fill c", u64::from(client), out)?;
    put_numbered(b" ", u64::from(at), out)?;
    put_numbered(b" ", u64::from(count), out)?;
    out.raw(b" ")?;
    put_byte(byte, out)?;
    out.raw(b"\n")
}

/// Appends a line. At an error it may have appended a part of it.
pub fn put_line(line: DrawnLine, out: &mut Out) -> Result<(), NoMemory>
    ensures { Grows out.old result out.new (line_text (drawn_value line)) }
{
    match line {
        DrawnLine::Fill {
            client,
            at,
            count,
            byte,
        } => put_fill(client, at, count, byte, out),
        DrawnLine::Commit { client } => put_end(b"commit c", client, out),
        DrawnLine::Return { client } => put_end(b"return c", client, out),
        DrawnLine::Read { client, at, count } => {
            put_numbered(b"read c", u64::from(client), out)?;
            put_numbered(b" ", u64::from(at), out)?;
            put_end(b" ", count, out)
        }
        DrawnLine::Recall { file } => put_end(b"recall ", file, out),
        DrawnLine::Tick { seconds } => put_end(b"tick ", seconds, out),
        DrawnLine::Restart { server } => put_end(b"restart d", server, out),
        DrawnLine::TimeoutOfMds { server } => put_end(b"timeout m d", server, out),
        DrawnLine::TimeoutOfClient { client, server } => {
            put_numbered(b"timeout c", u64::from(client), out)?;
            put_end(b" d", server, out)
        }
        DrawnLine::Resilver { file } => put_end(b"resilver ", file, out),
        DrawnLine::Deliver { packet } => put_end(b"deliver ", packet, out),
        DrawnLine::Flow => out.raw(b"flow\n"),
    }
}
