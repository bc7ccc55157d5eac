//! Bodies of the log, in XDR (RFC 4506, section 4.15).

ghost use Rattle.std.specs.Prelude.{◌≡◌, ◌↔◌, refl, IsTrue};
ghost use Rattle.ff_xdr.specs.Form.{Fits, spelling};
ghost use Rattle.ff_xdr.specs.Reading.{arm_reading};
ghost use Rattle.ff_xdr.specs.Calls.{Decodes, Grows};
ghost use Rattle.ds_log.specs.Bodies.{HoldsBytes, body_form, body_value};
ghost use Rattle.ds_log.specs.PlainBodies.{plain_body, plain_ranges};

use crate::range::{Bytes, Range};
use crate::wire_tick::WireTick;
use cluster_model::{Tick, Times};
use ff_xdr::{Array, Cursor, Message, NoMemory, Out, Wire, XdrError};

/// Times: atime, mtime and ctime.
type WireTimes = (WireTick, WireTick, WireTick);

/// Any number of ranges.
type Ranges<'a> = Array<'a, Range<'a>, { u32::MAX }>;

/// The body of a record of the log.
#[derive(Clone, Copy)]
pub enum LogBody<'a> {
    /// The server began a boot.
    Boot(u32),
    /// A file was made in the root, at a tick.
    Create {
        name: &'a [u8],
        fileid: u64,
        owner: u32,
        group: u32,
        mode: u32,
        tick: Tick,
    },
    /// A file's attributes were set.
    SetAttr {
        fileid: u64,
        owner: u32,
        group: u32,
        mode: u32,
        times: Times,
    },
    /// Bytes of a file became stable, each range behind the one before.
    Bytes {
        fileid: u64,
        mtime: Tick,
        ctime: Tick,
        ranges: Array<'a, Range<'a>, { u32::MAX }>,
    },
    /// There is a file with these attributes, which last, and no bytes.
    File {
        name: &'a [u8],
        fileid: u64,
        owner: u32,
        group: u32,
        mode: u32,
        times: Times,
    },
    /// The root's times.
    Root(Times),
}

impl<'a> Message for LogBody<'a> {
    ghost form = { body_form };

    ghost meaning = { λ body. body_value (plain_body body) };

    ghost sound = { refl };
}

/// Times in XDR, one behind the other.
fn wire_times(times: &Times) -> WireTimes
    ensures { result ≡ (record { tick = times.now.atime }, record { tick = times.now.mtime }, record { tick = times.now.ctime }) }
{
    (
        WireTick { tick: times.atime },
        WireTick { tick: times.mtime },
        WireTick { tick: times.ctime },
    )
}

/// Times as they were read.
fn times_of(wire: WireTimes) -> Times
    ensures { result ≡ record { atime = wire.0.tick; mtime = wire.1.tick; ctime = wire.2.tick } }
{
    let (atime, mtime, ctime) = wire;
    Times {
        atime: atime.tick,
        mtime: mtime.tick,
        ctime: ctime.tick,
    }
}

/// Reads the body of a record that says that a file was made, behind its number.
fn read_create<'a>(cursor: &mut Cursor<'a>) -> Result<LogBody<'a>, XdrError>
    ensures { Decodes (λ body. body_value (plain_body body)) cursor.old result cursor.new (arm_reading body_form 2 cursor.old.bytes cursor.old.at) }
{
    let (name, fileid, (owner, group, (mode, wire))) = <(
        Bytes<'a>,
        u64,
        (u32, u32, (u32, WireTick)),
    )>::read(cursor)?;
    Ok(LogBody::Create {
        name: name.bytes,
        fileid,
        owner,
        group,
        mode,
        tick: wire.tick,
    })
}

/// Reads the body of a record that says that attributes were set, behind its number.
fn read_set_attr<'a>(cursor: &mut Cursor<'a>) -> Result<LogBody<'a>, XdrError>
    ensures { Decodes (λ body. body_value (plain_body body)) cursor.old result cursor.new (arm_reading body_form 3 cursor.old.bytes cursor.old.at) }
{
    let (fileid, owner, (group, mode, wire)) = <(u64, u32, (u32, u32, WireTimes))>::read(cursor)?;
    Ok(LogBody::SetAttr {
        fileid,
        owner,
        group,
        mode,
        times: times_of(wire),
    })
}

/// Reads the body of a record that says that bytes became stable, behind its number.
fn read_bytes<'a>(cursor: &mut Cursor<'a>) -> Result<LogBody<'a>, XdrError>
    ensures { Decodes (λ body. body_value (plain_body body)) cursor.old result cursor.new (arm_reading body_form 4 cursor.old.bytes cursor.old.at) }
{
    let (fileid, mtime, (ctime, ranges)) = <(u64, WireTick, (WireTick, Ranges<'a>))>::read(cursor)?;
    Ok(LogBody::Bytes {
        fileid,
        mtime: mtime.tick,
        ctime: ctime.tick,
        ranges,
    })
}

/// Reads the body of a record that says that there is a file, behind its number.
fn read_file<'a>(cursor: &mut Cursor<'a>) -> Result<LogBody<'a>, XdrError>
    ensures { Decodes (λ body. body_value (plain_body body)) cursor.old result cursor.new (arm_reading body_form 6 cursor.old.bytes cursor.old.at) }
{
    let (name, fileid, (owner, group, (mode, wire))) = <(
        Bytes<'a>,
        u64,
        (u32, u32, (u32, WireTimes)),
    )>::read(cursor)?;
    Ok(LogBody::File {
        name: name.bytes,
        fileid,
        owner,
        group,
        mode,
        times: times_of(wire),
    })
}

/// Reads the body of a record that says the root's times, behind its number.
fn read_root<'a>(cursor: &mut Cursor<'a>) -> Result<LogBody<'a>, XdrError>
    ensures { Decodes (λ body. body_value (plain_body body)) cursor.old result cursor.new (arm_reading body_form 7 cursor.old.bytes cursor.old.at) }
{
    let wire = WireTimes::read(cursor)?;
    Ok(LogBody::Root(times_of(wire)))
}

/// Appends the body of a record that says that bytes became stable. At an error a part of it may stand in `out`.
fn put_bytes(
    fileid: u64,
    mtime: Tick,
    ctime: Tick,
    ranges: Ranges<'_>,
    out: &mut Out,
) -> Result<(), NoMemory>
    requires { Fits body_form (body_value (HoldsBytes fileid mtime ctime (plain_ranges ranges.items.place))) }
    ensures { Grows out.old result out.new (spelling body_form (body_value (HoldsBytes fileid mtime ctime (plain_ranges ranges.entry.items.place)))) }
{
    let (mtime, ctime) = (WireTick { tick: mtime }, WireTick { tick: ctime });
    (4u32, fileid, (mtime, ctime, ranges)).put(out)
}

/// The body of a record that says that bytes became stable has a spelling.
fn bytes_fit(fileid: u64, mtime: Tick, ctime: Tick, ranges: Ranges<'_>) -> bool
    ensures { IsTrue result ↔ Fits body_form (body_value (HoldsBytes fileid mtime ctime (plain_ranges ranges.entry.items.place))) }
{
    let (mtime, ctime) = (WireTick { tick: mtime }, WireTick { tick: ctime });
    (fileid, mtime, (ctime, ranges)).fits()
}

impl<'a> Wire<'a> for LogBody<'a> {
    fn read(cursor: &mut Cursor<'a>) -> Result<LogBody<'a>, XdrError> {
        let mut fork = cursor.fork();
        let body = match fork.number32()? {
            1 => LogBody::Boot(fork.number32()?),
            2 => read_create(&mut fork)?,
            3 => read_set_attr(&mut fork)?,
            4 => read_bytes(&mut fork)?,
            6 => read_file(&mut fork)?,
            7 => read_root(&mut fork)?,
            _ => return Err(XdrError::not_enum(cursor.place())),
        };
        *cursor = fork;
        Ok(body)
    }

    fn put(&self, out: &mut Out) -> Result<(), NoMemory> {
        match self {
            LogBody::Boot(boot) => (1u32, *boot).put(out),
            LogBody::Create {
                name,
                fileid,
                owner,
                group,
                mode,
                tick,
            } => {
                let rest = (*group, *mode, WireTick { tick: *tick });
                (2u32, Bytes { bytes: name }, (*fileid, *owner, rest)).put(out)
            }
            LogBody::SetAttr {
                fileid,
                owner,
                group,
                mode,
                times,
            } => {
                let rest = (*mode, wire_times(times));
                (3u32, *fileid, (*owner, *group, rest)).put(out)
            }
            LogBody::Bytes {
                fileid,
                mtime,
                ctime,
                ranges,
            } => put_bytes(*fileid, *mtime, *ctime, *ranges, out),
            LogBody::File {
                name,
                fileid,
                owner,
                group,
                mode,
                times,
            } => {
                let rest = (*group, *mode, wire_times(times));
                (6u32, Bytes { bytes: name }, (*fileid, *owner, rest)).put(out)
            }
            LogBody::Root(times) => (7u32, wire_times(times)).put(out),
        }
    }

    fn fits(&self) -> bool {
        match self {
            LogBody::Boot(boot) => boot.fits(),
            LogBody::Create {
                name,
                fileid,
                owner,
                group,
                mode,
                tick,
            } => {
                let rest = (*owner, *group, (*mode, WireTick { tick: *tick }));
                (Bytes { bytes: name }, *fileid, rest).fits()
            }
            LogBody::SetAttr {
                fileid,
                owner,
                group,
                mode,
                times,
            } => (*fileid, *owner, (*group, *mode, wire_times(times))).fits(),
            LogBody::Bytes {
                fileid,
                mtime,
                ctime,
                ranges,
            } => bytes_fit(*fileid, *mtime, *ctime, *ranges),
            LogBody::File {
                name,
                fileid,
                owner,
                group,
                mode,
                times,
            } => {
                let rest = (*owner, *group, (*mode, wire_times(times)));
                (Bytes { bytes: name }, *fileid, rest).fits()
            }
            LogBody::Root(times) => wire_times(times).fits(),
        }
    }
}
