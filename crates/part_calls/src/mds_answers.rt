//! What a metadata server's reply comes to as words.

use crate::addresses::put_place;
use client_mds_calls::{
    LayoutGrant, MdsAnswer, MdsAsk, MdsReply, OpenFile, SlotReport, mds_reply_of,
};
use device_addr::NetAddr;
use nfs4_types::Stateid;
use row_words::Answer;
use rpc_record::Reply;

/// What the SEQUENCE of a request came to.
fn put_slot(slot: SlotReport, answer: &mut Answer) {
    match slot {
        SlotReport::Taken => answer.word("Taken"),
        SlotReport::Uncached => answer.word("Uncached"),
        SlotReport::Delayed => answer.word("Delayed"),
        SlotReport::Unknown => answer.word("Unknown"),
    }
}

/// A stateid: how often it changed, and which state it is.
fn put_stateid(stateid: &Stateid, answer: &mut Answer) {
    answer.number32(stateid.seqid);
    answer.bytes(&stateid.other);
}

/// A file that was opened: its number and the stateid.
fn put_opened(opened: &OpenFile, answer: &mut Answer) {
    answer.word("Opened");
    answer.number32(opened.file.0);
    put_stateid(&opened.stateid, answer);
}

/// A layout that was granted: the stateid, the user and the mirrors.
fn put_granted(grant: &LayoutGrant, answer: &mut Answer) {
    answer.word("Granted");
    put_stateid(&grant.stateid, answer);
    answer.cred(grant.uid);
    answer.mirrors(grant.mirrors);
}

/// The addresses of devices, in four places.
fn put_devices(places: &[Option<NetAddr>; 4], answer: &mut Answer) {
    answer.word("Devices");
    for place in places {
        put_place(place, answer);
    }
}

/// What a request came to.
fn put_mds_answer(told: &MdsAnswer<'_>, answer: &mut Answer) {
    match told {
        MdsAnswer::Client { clientid, sequence } => {
            answer.word("Client");
            answer.number(*clientid);
            answer.number32(*sequence);
        }
        MdsAnswer::Session(session) => {
            answer.word("Session");
            answer.bytes(&session.0);
        }
        MdsAnswer::Complete => answer.word("Complete"),
        MdsAnswer::Opened(opened) => put_opened(opened, answer),
        MdsAnswer::Granted(grant) => put_granted(grant, answer),
        MdsAnswer::Devices(places) => put_devices(places, answer),
        MdsAnswer::Written => answer.word("Written"),
        MdsAnswer::Bytes { eof, bytes } => {
            answer.word("Bytes");
            answer.flag(*eof);
            answer.bytes(bytes);
        }
        MdsAnswer::Returned => answer.word("Returned"),
        MdsAnswer::Renewed => answer.word("Renewed"),
        MdsAnswer::Refused(status) => {
            answer.word("Refused");
            answer.number32(status.number());
        }
    }
}

/// What a reply to what was asked says of the slot, and what the request came to.
pub fn put_mds_reply(ask: &MdsAsk, reply: &Reply<'_>, answer: &mut Answer) {
    let MdsReply { slot, answer: told } = mds_reply_of(ask, reply);
    put_slot(slot, answer);
    put_mds_answer(&told, answer);
}
