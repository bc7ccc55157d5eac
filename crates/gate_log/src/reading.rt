//! Reading a log.

ghost use Rattle.std.specs.Prelude.{◌≡◌, ◌+◌, ◌^◌, ◌<◌, ◌≤◌, List, ℕ, IfOk, length, take};
ghost use Rattle.rpc_record.specs.Stream.{counted};
ghost use Rattle.gate_log.specs.Appends.{FindsGate, LiesWithin};
ghost use Rattle.gate_log.specs.Heads.{FindsHead, FitsIn, HeadSays, ReadsBody, ReadsFront};

use crate::gated::HEAD;
use rpc_record::Failed;
use store_disk::Disk;

/// What stands where a gate byte is due.
#[derive(Clone, Copy, Debug, PartialEq, Eq)]
pub enum Found {
    /// The disk ends there.
    Absent,
    /// A gate byte other than 1: the log ends there.
    Closed,
    /// A gate byte 1, and no whole record behind it.
    Broken,
    /// A record.
    Opens,
}

/// What the bytes before a body say.
#[derive(Clone, Copy)]
pub enum Head {
    Absent,
    Closed,
    Broken,
    /// A body of so many bytes stands behind them.
    Opens { length: u32 },
}

/// Reads from the byte `at` on, until the piece is full or the disk gives nothing more. Returns how many bytes were
/// read.
fn read_front<D: Disk>(disk: &mut D, at: u64, piece: &mut [u8]) -> Result<usize, Failed>
    requires { at + length piece.old < 2 ^ 64 }
    ensures within { IfOk result (λ n. n ≤ length piece.new) }
    ensures told { ReadsFront (D.told disk.old) at piece.new result }
    ensures same { D.told disk.new ≡ D.told disk.old }
    ensures faults { D.faults disk.new ≡ counted result (D.faults disk.old) }
{
    let mut done = 0;
    while done < piece.len() {
        let count = disk.read(at + done as u64, &mut piece[done..])?;
        if count == 0 {
            break;
        }
        done += count;
    }
    Ok(done)
}

/// What the first bytes of `left` say, which are all of them or at least `HEAD`.
fn judge(head: &[u8], left: u64) -> Head
    requires { length head.now ≤ left }
    ensures says { (bytes : List ℕ) → length bytes ≡ left → head.now ≡ take 5 bytes → HeadSays bytes result }
    ensures fits { FitsIn left result }
{
    let Some((gate, counted)) = head.split_first() else {
        return Head::Absent;
    };
    if *gate != 1 {
        return Head::Closed;
    }
    if counted.len() < 4 {
        return Head::Broken;
    }
    let length = u32::from_be_bytes([counted[0], counted[1], counted[2], counted[3]]);
    if u64::from(length) > left - HEAD as u64 {
        return Head::Broken;
    }
    Head::Opens { length }
}

/// Reads what stands before a body at the byte `at`, where `left` bytes are left of the disk.
pub fn read_head<D: Disk>(disk: &mut D, at: u64, left: u64) -> Result<Head, Failed>
    requires { at + left < 2 ^ 64 }
    ensures told { FindsHead (D.told disk.old) at left result }
    ensures fits { IfOk result (λ head. FitsIn left head) }
    ensures same { D.told disk.new ≡ D.told disk.old }
    ensures faults { D.faults disk.new ≡ counted result (D.faults disk.old) }
{
    let mut head = [0; HEAD];
    let piece = &mut head[..left.min(HEAD as u64) as usize];
    let count = read_front(disk, at, piece)?;
    Ok(judge(&piece[..count], left))
}

/// Reads a body of so many bytes that stands at the byte `at`. It is broken where the disk gives fewer.
fn read_body<D: Disk>(
    disk: &mut D,
    at: u64,
    length: u32,
    body: &mut Vec<u8>,
) -> Result<Found, Failed>
    requires { at + length < 2 ^ 64 }
    ensures told { ReadsBody (D.told disk.old) at length result body.new.items }
    ensures same { D.told disk.new ≡ D.told disk.old }
    ensures faults { D.faults disk.new ≡ counted result (D.faults disk.old) }
{
    body.clear();
    if body.resize(length as usize, 0).is_err() {
        return Err(Failed::NoMemory);
    }
    let count = read_front(disk, at, body.as_mut_slice())?;
    if count < length as usize {
        return Ok(Found::Broken);
    }
    Ok(Found::Opens)
}

/// What stands at the byte `at` of a disk that has `size` bytes, where a gate byte is due. The body of a record that
/// stands there is in `body` then.
///
/// Memory is taken only for a body that lies within the disk.
pub fn find_gate<D: Disk>(
    disk: &mut D,
    size: u64,
    at: u64,
    body: &mut Vec<u8>,
) -> Result<Found, Failed>
    requires { at ≤ size }
    ensures found { FindsGate (D.told disk.old) size at result body.new.items }
    ensures within { LiesWithin size at result body.new.items }
    ensures same { D.told disk.new ≡ D.told disk.old }
    ensures faults { D.faults disk.new ≡ counted result (D.faults disk.old) }
{
    match read_head(disk, at, size - at)? {
        Head::Absent => Ok(Found::Absent),
        Head::Closed => Ok(Found::Closed),
        Head::Broken => Ok(Found::Broken),
        Head::Opens { length } => read_body(disk, at + HEAD as u64, length, body),
    }
}
