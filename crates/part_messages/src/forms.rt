//! The forms of messages that stand by themselves.

use crate::asked::{Ask, put_message};
use device_addr::FfDeviceAddr;
use ff_layout::{FfLayout, LayoutReturnBody};
use nfs4_compound::{AnyOp, CbOp, CbRes, Op, OpRes};
use nfs4_types::{
    Bitmap, ChannelAttrs, DeviceId, Handle4, Sequence, SessionId, Stat4, Stateid, Time4,
};
use row_words::Answer;
use rpc_record::AuthSys;

/// What is asked of bytes in the form of this name.
pub fn put_form(form: &str, ask: Ask, longer: &[u8], answer: &mut Answer) {
    match form {
        "op" => put_message::<Op>(ask, longer, answer),
        "anyop" => put_message::<AnyOp>(ask, longer, answer),
        "opres" => put_message::<OpRes>(ask, longer, answer),
        "cbop" => put_message::<CbOp>(ask, longer, answer),
        "cbres" => put_message::<CbRes>(ask, longer, answer),
        "sequence" => put_message::<Sequence>(ask, longer, answer),
        "channel_attrs" => put_message::<ChannelAttrs>(ask, longer, answer),
        _ => put_word_form(form, ask, longer, answer),
    }
}

/// The same of identifiers and other small forms.
fn put_word_form(form: &str, ask: Ask, longer: &[u8], answer: &mut Answer) {
    match form {
        "stateid" => put_message::<Stateid>(ask, longer, answer),
        "session_id" => put_message::<SessionId>(ask, longer, answer),
        "device_id" => put_message::<DeviceId>(ask, longer, answer),
        "bitmap" => put_message::<Bitmap>(ask, longer, answer),
        "handle" => put_message::<Handle4>(ask, longer, answer),
        "time" => put_message::<Time4>(ask, longer, answer),
        _ => put_body_form(form, ask, longer, answer),
    }
}

/// The same of statuses, and of bodies that stand within messages.
fn put_body_form(form: &str, ask: Ask, longer: &[u8], answer: &mut Answer) {
    match form {
        "stat4" => put_message::<Stat4>(ask, longer, answer),
        "layout" => put_message::<FfLayout>(ask, longer, answer),
        "layout_return" => put_message::<LayoutReturnBody>(ask, longer, answer),
        "device_address" => put_message::<FfDeviceAddr>(ask, longer, answer),
        "auth_sys" => put_message::<AuthSys>(ask, longer, answer),
        _ => answer.refuse(),
    }
}
