//! What the body of a layout grants (RFC 8435, section 5.1).

ghost use Rattle.std.specs.Prelude.{◌≡◌, Ok, Some};
ghost use Rattle.ff_xdr.specs.Items.{contents};
ghost use Rattle.ff_xdr.specs.Reading.{reading, whole};
ghost use Rattle.nfs4_types.specs.Handles.{nfs_fh4};
ghost use Rattle.ff_layout.specs.DataServer.{ff_data_server4_value};
ghost use Rattle.ff_layout.specs.Mirror.{ff_mirror4_value};
ghost use Rattle.ff_layout.specs.Layout.{ff_layout4, ff_layout4_value};
ghost use Rattle.client_file_calls.specs.LayoutGrants.{data_server_of, layout_grant_of, granted_to, granted_mirror_of, user_number_in, one_handle, server_in, under_one};

use client_compounds::{Few, few_of};
use cluster_model::{Cred, Mirror, MirrorId, Mirrors, Tick};
use ff_layout::{FfDataServer, FfLayout, FfMirror, user_number};
use ff_xdr::{Items, Wire};
use nfs4_types::{DeviceId, Handle4, Stateid, device_of, file_number};

/// A layout that was granted: its stateid, the uid that its writes carry, and the mirrors of the file, at
/// which nothing was seen yet.
#[derive(Clone, Copy, Debug, PartialEq, Eq)]
pub struct LayoutGrant {
    pub stateid: Stateid,
    pub uid: Cred,
    pub mirrors: Mirrors,
}

/// A mirror, and the user under whom it is written.
#[derive(Clone, Copy)]
pub struct GrantedMirror {
    pub mirror: Mirror,
    pub uid: u32,
}

/// The number that a text is in decimal, where it is one below 2^32 (RFC 8435, section 2.2).
fn user_number_in(text: &str) -> Option<u32>
    ensures { result ≡ user_number_in text.now }
{
    user_number(text)
}

/// The data server of a device, from 1 to 16.
fn server_in(device: DeviceId) -> Option<u32>
    ensures { result ≡ server_in device.0 }
{
    let [_, _, _, _, _, _, _, _, a, b, c, d, e, f, g, h] = device.0;
    let number = u64::from_be_bytes([a, b, c, d, e, f, g, h]);
    if number < 1 || number > 16 {
        return None;
    }
    if device.0 == device_of(number as u32).0 {
        Some(number as u32)
    } else {
        None
    }
}

/// The file's number at the data server, where it has one handle, of eight bytes.
fn one_handle(handles: Items<'_, Handle4<'_>>) -> Option<u64>
    ensures { result ≡ one_handle (contents nfs_fh4 (λ handle. handle.bytes.now) handles.entry.place) }
{
    match few_of(handles) {
        Few::One(handle) => file_number(handle.bytes),
        _ => None,
    }
}

/// A mirror on a data server; its user and its group are one number.
fn data_server_of(server: &FfDataServer<'_>) -> Option<GrantedMirror>
    ensures { result ≡ data_server_of (ff_data_server4_value server.now) }
{
    if server.user != server.group {
        return None;
    }
    let fileid = one_handle(server.handles)?;
    let uid = user_number_in(server.user)?;
    let server = server_in(server.device)?;
    Some(GrantedMirror {
        mirror: Mirror {
            id: MirrorId { server, fileid },
            seen: Tick { boot: 0, count: 0 },
        },
        uid,
    })
}

/// A mirror, where it has one data server.
fn granted_mirror_of(mirror: &FfMirror<'_>) -> Option<GrantedMirror>
    ensures { result ≡ granted_mirror_of (ff_mirror4_value mirror.now) }
{
    match few_of(mirror.servers) {
        Few::One(server) => data_server_of(&server),
        _ => None,
    }
}

/// A mirror that is written under this user.
fn under(uid: u32, mirror: &FfMirror<'_>) -> Option<Mirror>
    ensures { result ≡ under_one uid (granted_mirror_of (ff_mirror4_value mirror.now)) }
{
    let granted = granted_mirror_of(mirror)?;
    if granted.uid == uid {
        Some(granted.mirror)
    } else {
        None
    }
}

/// A layout of these mirrors, where a file may have them.
fn granted_to(stateid: Stateid, uid: u32, mirrors: &[Mirror]) -> Option<LayoutGrant>
    ensures { result ≡ granted_to stateid uid (Some mirrors.now) }
{
    match Mirrors::of(mirrors) {
        None => None,
        Some(mirrors) => Some(LayoutGrant {
            stateid,
            uid: Cred(uid),
            mirrors,
        }),
    }
}

/// The layout: one to four mirrors of one user, no two on one server.
fn layout_grant_of(stateid: Stateid, layout: &FfLayout<'_>) -> Option<LayoutGrant>
    ensures { result ≡ layout_grant_of stateid (Ok (ff_layout4_value layout.now)) }
{
    match few_of(layout.mirrors) {
        Few::One(a) => {
            let GrantedMirror { mirror: a, uid } = granted_mirror_of(&a)?;
            granted_to(stateid, uid, &[a])
        }
        Few::Two(a, b) => {
            let GrantedMirror { mirror: a, uid } = granted_mirror_of(&a)?;
            granted_to(stateid, uid, &[a, under(uid, &b)?])
        }
        Few::Three(a, b, c) => {
            let GrantedMirror { mirror: a, uid } = granted_mirror_of(&a)?;
            granted_to(stateid, uid, &[a, under(uid, &b)?, under(uid, &c)?])
        }
        Few::Four(a, b, c, d) => {
            let GrantedMirror { mirror: a, uid } = granted_mirror_of(&a)?;
            granted_to(
                stateid,
                uid,
                &[a, under(uid, &b)?, under(uid, &c)?, under(uid, &d)?],
            )
        }
        Few::Empty => None,
        Few::Five(..) => None,
        Few::More => None,
    }
}

/// The layout of a body, where it is in its form.
pub fn grant_in(stateid: Stateid, body: &[u8]) -> Option<LayoutGrant>
    ensures { result ≡ layout_grant_of stateid (whole body.now (reading ff_layout4 body.now 0)) }
{
    match FfLayout::from_bytes(body) {
        Ok(layout) => layout_grant_of(stateid, &layout),
        Err(_) => None,
    }
}
