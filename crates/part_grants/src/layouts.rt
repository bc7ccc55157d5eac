//! What grants a layout: `layout UID MIRRORS`, its body, and `layout_size UID COUNT`; `layout_result STATEID HEX`, the result of a
//! LAYOUTGET with this body; `device ADDRESS`, the body of a device's address, and `device_size ADDRESS`; `device_result HEX`, the
//! result of a GETDEVICEINFO with this body. An ADDRESS is a universal one, as `127.0.0.1.8.1`.

ghost use Rattle.std.specs.Prelude.{◌<◌, ◌^◌, length};

use device_addr::{NetAddr, parse_universal};
use ff_xdr::{Data, NoMemory, Out, Wire};
use granted_layouts::{
    device_body, device_info_result, device_info_size, layout_body, layout_result, layout_size,
    whole_layout,
};
use nfs4_compound::OpRes;
use nfs4_types::Stateid;
use row_words::{Answer, Part, RowFault, Words};

/// What grants a layout.
#[derive(Drop)]
pub struct LayoutsRows;

/// The bytes of a result.
fn put_result(res: &OpRes<'_>, answer: &mut Answer) {
    if !res.fits() {
        return answer.refuse();
    }
    let mut out = Out::new(answer.alloc());
    match res.write(&mut out) {
        Ok(()) => answer.bytes(out.bytes()),
        Err(_) => answer.want_memory(),
    }
}

/// A body, which is shorter than 2^32 bytes.
fn body(words: &mut Words<'_>) -> Vec<u8>
    ensures { length result.items < 2 ^ 32 }
{
    let bytes = words.bytes();
    if bytes.len() > u32::MAX as usize {
        words.note(RowFault::Outside);
        return Vec::new(words.alloc());
    }
    bytes
}

/// A body that was made.
fn put_body(body: Result<Data, NoMemory>, answer: &mut Answer) {
    match body {
        Ok(body) => answer.bytes(body.bytes()),
        Err(_) => answer.want_memory(),
    }
}

/// `UID MIRRORS`: the body of the layout.
fn put_layout(words: &mut Words<'_>, answer: &mut Answer) {
    let uid = words.cred();
    let mirrors = words.mirrors();
    if words.end() {
        put_body(layout_body(answer.alloc(), uid, mirrors), answer);
    }
}

/// `UID COUNT`: how long a layout is.
fn put_layout_size(words: &mut Words<'_>, answer: &mut Answer) {
    let uid = words.cred();
    let count = words.number32() as usize;
    if count > 4 {
        return answer.refuse();
    }
    if words.end() {
        answer.number32(layout_size(uid, count));
    }
}

/// `STATEID HEX`: the result of a LAYOUTGET.
fn put_layout_result(words: &mut Words<'_>, answer: &mut Answer) {
    let stateid = words.sized::<16>();
    let body = body(words);
    let Ok(stateid) = Stateid::from_bytes(&stateid) else {
        return answer.refuse();
    };
    if words.end() {
        let layouts = [whole_layout(body.as_slice())];
        put_result(&OpRes::LayoutGet(layout_result(stateid, &layouts)), answer);
    }
}

/// `HEX`: the result of a GETDEVICEINFO.
fn put_device_result(words: &mut Words<'_>, answer: &mut Answer) {
    let body = body(words);
    if words.end() {
        let info = device_info_result(body.as_slice());
        put_result(&OpRes::GetDeviceInfo(info), answer);
    }
}

/// What is made of a device's address.
fn put_on_address(name: &str, address: &NetAddr, answer: &mut Answer) {
    match name {
        "device" => put_body(device_body(answer.alloc(), address), answer),
        "device_size" => answer.number32(device_info_size(address)),
        _ => answer.refuse(),
    }
}

/// A universal address that is the line's last word, and what is made of it.
fn put_address(name: &str, words: &mut Words<'_>, answer: &mut Answer) {
    let text = words.word();
    if !words.end() {
        return;
    }
    match parse_universal(text) {
        Some(address) => put_on_address(name, &address, answer),
        None => answer.refuse(),
    }
}

impl Part for LayoutsRows {
    fn call(&mut self, words: &mut Words<'_>, answer: &mut Answer) {
        match words.word() {
            "layout" => put_layout(words, answer),
            "layout_size" => put_layout_size(words, answer),
            "layout_result" => put_layout_result(words, answer),
            "device_result" => put_device_result(words, answer),
            name => put_address(name, words, answer),
        }
    }
}
