//! The attributes of objects (RFC 1813, section 2.5), and what is said of them before and after an operation
//! (section 2.6).

ghost use Rattle.std.specs.Prelude.{◌≡◌};
ghost use Rattle.ds_procedures.specs.Objects.{time_of, root_attributes, file_attributes, wcc_between, wcc_same};

use cluster_model::{Tick, Times};
use data_file::DataFile;
use nfs3_wire::{Fattr3, FileType, Specdata3, Time3, WccAttr, WccData};

/// A tick as a time: the boot number in the seconds, the count in the nanoseconds.
pub fn time_of(tick: Tick) -> Time3
    ensures { result ≡ time_of tick }
{
    Time3 {
        seconds: tick.boot,
        nanos: tick.count,
    }
}

/// No device.
fn no_device() -> Specdata3
    ensures { result ≡ record { major = 0; minor = 0 } }
{
    Specdata3 { major: 0, minor: 0 }
}

/// The root's attributes.
pub fn root_attributes(times: Times) -> Fattr3
    ensures { result ≡ root_attributes times }
{
    Fattr3 {
        kind: FileType::Directory,
        mode: 0o755,
        nlink: 2,
        uid: 0,
        gid: 0,
        size: 4096,
        used: 4096,
        rdev: no_device(),
        fsid: 1,
        fileid: 1,
        atime: time_of(times.atime),
        mtime: time_of(times.mtime),
        ctime: time_of(times.ctime),
    }
}

/// A file's attributes.
pub fn file_attributes(fileid: u64, file: &DataFile) -> Fattr3
    ensures { result ≡ file_attributes fileid file.now }
{
    let size = file.size();
    let times = file.times();
    Fattr3 {
        kind: FileType::Regular,
        mode: file.mode(),
        nlink: 1,
        uid: file.owner(),
        gid: file.group(),
        size,
        used: size,
        rdev: no_device(),
        fsid: 1,
        fileid,
        atime: time_of(times.atime),
        mtime: time_of(times.mtime),
        ctime: time_of(times.ctime),
    }
}

/// The attributes before an operation and after it.
pub fn wcc_between(before: &Fattr3, after: Fattr3) -> WccData
    ensures { result ≡ wcc_between before.now after }
{
    let before = WccAttr {
        size: before.size,
        mtime: before.mtime,
        ctime: before.ctime,
    };
    WccData {
        before: Some(before),
        after: Some(after),
    }
}

/// The same where the object stays as it is, or there is none.
pub fn wcc_same(attributes: Option<Fattr3>) -> WccData
    ensures { result ≡ wcc_same attributes }
{
    match attributes {
        None => WccData {
            before: None,
            after: None,
        },
        Some(attributes) => wcc_between(&attributes, attributes),
    }
}
