//! Record marking (RFC 5531, section 11): records out of a stream that comes in any pieces.

ghost use Rattle.std.specs.Prelude.{◌≡◌, ◌+◌, ◌≤◌, ◌<◌, ◌++◌, ◌∷◌, List, ℕ, [], length, take, drop, IfOk, OnErr, IsErrOf, IsTrue, Some, None};
ghost use Rattle.std.specs.Int.{w32, from_be_bytes};
ghost use Rattle.std.specs.Option.{option_map};
ghost use Rattle.ff_xdr.specs.Calls.{Puts};
ghost use Rattle.rpc_record.specs.Frames.{front_of, max_record, record_bytes, held_of, HasGiven, Feeds, TakesOut, with_taken, Header, Open, TooLong, TooManyFragments};
ghost use Rattle.rpc_record.specs.FramesView.{front_at, is_more, IsStage, IsInLimit, front_settled, front_behind, Steps, TakesSome, Gathers, answers};

use ff_xdr::{NoMemory, Out};
use std::alloc::Global;
use std::marker::Model;
use std::mem;
use thiserror::Error;

/// The most bytes of a record.
pub const MAX_RECORD: usize = 1_179_648;

/// The most fragments of a record.
pub const MAX_FRAGMENTS: u32 = 1024;

/// Why a stream is refused.
#[derive(Clone, Copy, Debug, PartialEq, Eq, Error)]
pub enum RecordFault {
    /// With this header's fragment a record would have more than `MAX_RECORD` bytes.
    #[error("a record would have more than {MAX_RECORD} bytes")]
    TooLong,
    /// This header is one more than `MAX_FRAGMENTS` of a record.
    #[error("a record would have more than {MAX_FRAGMENTS} fragments")]
    TooManyFragments,
    /// Memory was wanted. Nothing has changed.
    #[error("memory was wanted")]
    NoMemory,
}

impl From<NoMemory> for RecordFault {
    ghost use Rattle.rpc_record.specs.declared.frames.RecordFault.{RecordFault};

    ghost from_gives = { λ _ fault. fault ≡ RecordFault.NoMemory };

    fn from(_e: NoMemory) -> RecordFault {
        RecordFault::NoMemory
    }
}

/// Where the record that is gathered stands.
#[derive(Clone, Copy, Debug)]
enum Stage {
    /// A header comes: so many headers may still come, and the first `count` of `bytes` are there,
    /// fewer than four.
    Header {
        headers: u32,
        bytes: [u8; 4],
        count: usize,
    },
    /// The bytes of a fragment come: so many headers may come behind it, and so many of its bytes
    /// are to come, at least one.
    Body {
        headers: u32,
        left: usize,
        last: bool,
    },
    /// The record is whole.
    Whole,
    /// A header passed the limit of the length.
    TooLong,
    /// A header passed the limit of the fragments.
    TooManyFragments,
}

/// The stage where a header comes, of which no byte is there.
fn at_header(headers: u32) -> Stage
    ensures front { (gathered : List ℕ) → front_at gathered result ≡ Open (record { gathered = gathered; headers = headers; coming = Header [] }) }
    ensures stage { IsStage result }
    ensures limit { (gathered : ℕ) → gathered ≤ max_record → IsInLimit gathered result }
{
    Stage::Header {
        headers,
        bytes: [0; 4],
        count: 0,
    }
}

/// The stage where so many bytes of a fragment are to come.
fn settled(headers: u32, left: usize, last: bool) -> Stage
    ensures front { (gathered : List ℕ) → front_at gathered result ≡ front_settled gathered headers left last }
    ensures stage { IsStage result }
    ensures limit { (gathered : ℕ) → gathered + left ≤ max_record → IsInLimit gathered result }
{
    if left > 0 {
        Stage::Body {
            headers,
            left,
            last,
        }
    } else if last {
        Stage::Whole
    } else {
        at_header(headers)
    }
}

/// The stage behind a header, where so many bytes were gathered before it. The header's highest bit
/// is set at a record's last fragment, and the others are the fragment's length.
fn behind_header(headers: u32, gathered: usize, word: u32) -> Stage
    ensures front { (bytes : List ℕ) → length bytes ≡ gathered → front_at bytes result ≡ front_behind bytes headers word }
    ensures stage { IsStage result }
    ensures limit { gathered ≤ max_record → IsInLimit gathered result }
{
    let last = word >= 0x8000_0000;
    let length = if last { word - 0x8000_0000 } else { word } as usize;
    if length > MAX_RECORD {
        Stage::TooLong
    } else if gathered > MAX_RECORD - length {
        Stage::TooLong
    } else if headers == 0 {
        Stage::TooManyFragments
    } else {
        settled(headers - 1, length, last)
    }
}

/// The stage where the next byte of a header has come.
fn header_byte(headers: u32, bytes: [u8; 4], count: usize, byte: u8, gathered: usize) -> Stage
    requires count { count < 4 }
    requires four { length bytes ≡ 4 }
    ensures steps { (before : List ℕ) → length before ≡ gathered → Steps (front_at before (Stage.Header headers bytes count)) (byte ∷ []) (front_at before result) }
    ensures stage { IsStage result }
    ensures limit { gathered ≤ max_record → IsInLimit gathered result }
{
    let mut bytes = bytes;
    bytes[count] = byte;
    if count < 3 {
        Stage::Header {
            headers,
            bytes,
            count: count + 1,
        }
    } else {
        behind_header(headers, gathered, u32::from_be_bytes(bytes))
    }
}

/// Whether more bytes of the record are to come.
fn is_more(stage: Stage) -> bool
    ensures { result ≡ is_more stage }
{
    matches!(stage, Stage::Header { .. } | Stage::Body { .. })
}

/// Takes bytes of a piece: the next of a header, or all that there are of a fragment. Answers how
/// many, and the stage behind them. Room for the rest of a fragment is made at once, so its bytes are
/// copied once, however they come. At an error nothing was gathered.
fn step(gathered: &mut Vec<u8>, stage: Stage, piece: &[u8]) -> Result<(usize, Stage), NoMemory>
    requires some { 0 < length piece.now }
    requires more { IsTrue (is_more stage) }
    requires stage { IsStage stage }
    ensures ok { IfOk result (λ r. TakesSome gathered.old.items stage piece.now r.0 gathered.new.items r.1) }
    ensures err { OnErr result (gathered.new.items ≡ gathered.old.items) }
{
    match stage {
        Stage::Header {
            headers,
            bytes,
            count,
        } => Ok((
            1,
            header_byte(headers, bytes, count, piece[0], gathered.len()),
        )),
        Stage::Body {
            headers,
            left,
            last,
        } => {
            let count = left.min(piece.len());
            gathered.reserve(left)?;
            gathered.extend_from_slice(&piece[..count])?;
            Ok((count, settled(headers, left - count, last)))
        }
        _ => Ok((0, stage)),
    }
}

/// Takes bytes of a piece up to its end, to the end of a whole record, or to the end of a header
/// that passes a limit. Answers how many, and the stage behind them. At an error nothing was
/// gathered.
fn gather(gathered: &mut Vec<u8>, start: Stage, piece: &[u8]) -> Result<(usize, Stage), NoMemory>
    requires { IsStage start }
    ensures ok { IfOk result (λ r. Gathers gathered.old.items start piece.now r.0 gathered.new.items r.1) }
    ensures err { OnErr result (gathered.new.items ≡ gathered.old.items) }
    ensures more { OnErr result (IsTrue (is_more start)) }
{
    let mark = gathered.len();
    let mut stage = start;
    let mut taken = 0;
    while taken < piece.len() && is_more(stage) {
        match step(gathered, stage, &piece[taken..]) {
            Ok((count, next)) => {
                taken += count;
                stage = next;
            }
            Err(e) => {
                gathered.truncate(mark);
                return Err(e);
            }
        }
    }
    Ok((taken, stage))
}

/// What feeding a piece answers, where so many bytes were taken.
fn answer(stage: Stage, taken: usize) -> Result<usize, RecordFault>
    ensures { result ≡ answers stage taken }
{
    match stage {
        Stage::TooLong => Err(RecordFault::TooLong),
        Stage::TooManyFragments => Err(RecordFault::TooManyFragments),
        _ => Ok(taken),
    }
}

/// Gathers records of a stream that comes in any pieces, one record after another (RFC 5531,
/// section 11). Clauses see it as the front of what was fed since the last record was taken.
#[derive(Debug, Drop)]
pub struct Frames {
    gathered: Vec<u8>,
    stage: Stage,
    alloc: Global,
}

impl Model for Frames {
    ghost use Rattle.rpc_record.specs.Frames.{Front};
    ghost use Rattle.rpc_record.specs.FramesView.{front_at, IsStage, IsInLimit};
    ghost use Rattle.std.specs.Prelude.{length};

    ghost Value = { Front };

    ghost view = { λ f. front_at f.gathered.items f.stage };

    ghost invariant = { λ f. IsStage f.stage × IsInLimit (length f.gathered.items) f.stage };
}

impl Frames {
    /// Nothing so far; takes no memory.
    pub fn new(alloc: Global) -> Frames
        ensures { result ≡ front_of [] }
    {
        Frames {
            gathered: Vec::new(alloc),
            stage: at_header(MAX_FRAGMENTS),
            alloc,
        }
    }

    /// Takes the next bytes of the stream, and answers how many: all, or those up to the end of a
    /// whole record. Where a whole record was not taken out it answers 0.
    ///
    /// A header that passes a limit is refused at its fourth byte, and from then on every call
    /// answers the same error. At `NoMemory` nothing was taken, and the same piece may be fed
    /// again.
    pub fn feed(&mut self, piece: &[u8]) -> Result<usize, RecordFault>
        ensures told { (fed : List ℕ) → self.old ≡ front_of fed → Feeds fed piece.now result self.new }
        ensures goes_on { (stream : List ℕ) (messages : List (List ℕ)) → HasGiven stream messages self.old → IfOk result (λ n. HasGiven (stream ++ take n piece.now) messages self.new) }
        ensures too_long { self.old ≡ TooLong → IsErrOf result RecordFault.TooLong }
        ensures too_many { self.old ≡ TooManyFragments → IsErrOf result RecordFault.TooManyFragments }
        ensures memory { IsErrOf result RecordFault.NoMemory → self.new ≡ self.old }
    {
        let start = self.stage;
        let (taken, stage) = gather(&mut self.gathered, start, piece)?;
        self.stage = stage;
        answer(stage, taken)
    }

    /// So many bytes of the record that is gathered are there, at most `MAX_RECORD`: those of its fragments,
    /// without their headers. A stream that is refused gathers none.
    pub fn held(&self) -> usize
        ensures told { result ≡ held_of self.now }
        ensures limit { result ≤ max_record }
    {
        match self.stage {
            Stage::TooLong | Stage::TooManyFragments => 0,
            _ => self.gathered.len(),
        }
    }

    /// Takes out the record that is whole, or nothing where none is; takes no memory.
    pub fn take(&mut self) -> Option<Vec<u8>>
        ensures told { TakesOut self.old (option_map (λ m. m.items) result) self.new }
        ensures goes_on { (stream : List ℕ) (messages : List (List ℕ)) → HasGiven stream messages self.old → HasGiven stream (with_taken messages (option_map (λ m. m.items) result)) self.new }
    {
        match self.stage {
            Stage::Whole => {
                let empty = Vec::new(self.alloc);
                self.stage = at_header(MAX_FRAGMENTS);
                Some(mem::replace(&mut self.gathered, empty))
            }
            _ => None,
        }
    }
}

/// Appends a message as a record of one fragment (RFC 5531, section 11), or nothing. A message has
/// at most `MAX_RECORD` bytes.
pub fn put_record(message: &[u8], out: &mut Out) -> Result<(), NoMemory>
    requires { length message.now ≤ max_record }
    ensures { Puts out.old result out.new (record_bytes message.now) }
{
    let mark = out.len();
    out.number32(0x8000_0000 + message.len() as u32)?;
    if out.raw(message).is_err() {
        out.truncate(mark);
        return Err(NoMemory);
    }
    Ok(())
}
