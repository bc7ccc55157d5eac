//! What the reply to a call comes to.

ghost use Rattle.std.specs.Prelude.{◌≡◌};
ghost use Rattle.std.specs.List.{flat_map};
ghost use Rattle.std.specs.Option.{option_map, option_to_list};
ghost use Rattle.ff_xdr.specs.Items.{contents};
ghost use Rattle.ff_xdr.specs.Reading.{reading, whole};
ghost use Rattle.rpc_record.specs.Replies.{rpc_reply};
ghost use Rattle.nfs4_types.specs.Status.{stat4_number};
ghost use Rattle.nfs4_compound.specs.Compounds.{compound4_res};
ghost use Rattle.nfs4_compound.specs.Results.{resop4, op_res_value};
ghost use Rattle.client_file_calls.specs.FileResults.{plain_bytes_read};
ghost use Rattle.client_mds_calls.specs.MdsReplies.{Bytes, Client, Complete, Devices, Granted, Opened, Renewed, Returned, Session, Written, answer_if, answer_where, compound_answer, compound_reply, odd_mds_reply, odd_results, plain_mds_answer, plain_mds_reply, reply_of_ask, results_of_ask};

use crate::ask::MdsAsk;
use crate::reply::{MdsAnswer, MdsReply, SlotReport};
use crate::slot::slot_told;
use client_compounds::CompoundResults;
use client_file_calls::{
    BytesRead, LayoutGrant, OpenFile, device_info_results, layout_get_results,
    layout_return_results, open_results, read_results, write_results,
};
use client_session_calls::{
    ClientGiven, create_session_results, exchange_id_results, reclaim_complete_results,
    renew_results,
};
use device_addr::NetAddr;
use ff_xdr::{Array, Wire};
use nfs4_compound::{OpRes, Tag4};
use nfs4_types::{SessionId, Stat4};
use rpc_record::{Reply, ReplyBody};

/// The result of a compound, `COMPOUND4res`.
type CompoundRes<'a> = (Stat4, Tag4<'a>, Array<'a, OpRes<'a>, { u32::MAX }>);

/// A reply that no server gives by the standard: SERVERFAULT (RFC 8881, section 15.1.1.9).
fn odd_results<'a>() -> MdsAnswer<'a>
    ensures { plain_mds_answer result ≡ odd_results }
{
    MdsAnswer::Refused(Stat4::ServerFault)
}

/// The answer to an EXCHANGE_ID.
fn client_answer<'a>(given: Option<ClientGiven>) -> MdsAnswer<'a>
    ensures { plain_mds_answer result ≡ answer_where (λ c. Client c.clientid c.sequence) given }
{
    match given {
        Some(given) => MdsAnswer::Client {
            clientid: given.clientid,
            sequence: given.sequence,
        },
        None => odd_results(),
    }
}

/// The answer to a CREATE_SESSION.
fn session_answer<'a>(session: Option<SessionId>) -> MdsAnswer<'a>
    ensures { plain_mds_answer result ≡ answer_where Session session }
{
    match session {
        Some(session) => MdsAnswer::Session(session),
        None => odd_results(),
    }
}

/// The answer to a RECLAIM_COMPLETE.
fn complete_answer<'a>(is_ok: bool) -> MdsAnswer<'a>
    ensures { plain_mds_answer result ≡ answer_if is_ok Complete }
{
    if is_ok {
        MdsAnswer::Complete
    } else {
        odd_results()
    }
}

/// The answer to an OPEN.
fn open_answer<'a>(file: Option<OpenFile>) -> MdsAnswer<'a>
    ensures { plain_mds_answer result ≡ answer_where Opened file }
{
    match file {
        Some(file) => MdsAnswer::Opened(file),
        None => odd_results(),
    }
}

/// The answer to a LAYOUTGET.
fn layout_answer<'a>(grant: Option<LayoutGrant>) -> MdsAnswer<'a>
    ensures { plain_mds_answer result ≡ answer_where Granted grant }
{
    match grant {
        Some(grant) => MdsAnswer::Granted(grant),
        None => odd_results(),
    }
}

/// The answer to a GETDEVICEINFO.
fn devices_answer<'a>(addresses: Option<[Option<NetAddr>; 4]>) -> MdsAnswer<'a>
    ensures { plain_mds_answer result ≡ answer_where Devices (option_map (flat_map option_to_list) addresses) }
{
    match addresses {
        Some(addresses) => MdsAnswer::Devices(addresses),
        None => odd_results(),
    }
}

/// The answer to a WRITE.
fn write_answer<'a>(is_ok: bool) -> MdsAnswer<'a>
    ensures { plain_mds_answer result ≡ answer_if is_ok Written }
{
    if is_ok {
        MdsAnswer::Written
    } else {
        odd_results()
    }
}

/// The answer to a READ.
fn read_answer<'a>(read: Option<BytesRead<'a>>) -> MdsAnswer<'a>
    ensures { plain_mds_answer result ≡ answer_where (λ b. Bytes b.eof b.bytes) (option_map plain_bytes_read read.entry) }
{
    match read {
        Some(read) => MdsAnswer::Bytes {
            eof: read.eof,
            bytes: read.bytes,
        },
        None => odd_results(),
    }
}

/// The answer to a LAYOUTRETURN.
fn return_answer<'a>(is_ok: bool) -> MdsAnswer<'a>
    ensures { plain_mds_answer result ≡ answer_if is_ok Returned }
{
    if is_ok {
        MdsAnswer::Returned
    } else {
        odd_results()
    }
}

/// The answer to a SEQUENCE alone.
fn renew_answer<'a>(is_ok: bool) -> MdsAnswer<'a>
    ensures { plain_mds_answer result ≡ answer_if is_ok Renewed }
{
    if is_ok {
        MdsAnswer::Renewed
    } else {
        odd_results()
    }
}

/// What the results of a compound that is OK say.
fn results_of<'a>(ask: &MdsAsk, results: CompoundResults<'a>) -> MdsAnswer<'a>
    ensures { plain_mds_answer result ≡ results_of_ask ask.now (contents resop4 op_res_value results.entry.place) }
{
    match ask {
        MdsAsk::ExchangeId => client_answer(exchange_id_results(results)),
        MdsAsk::CreateSession => session_answer(create_session_results(results)),
        MdsAsk::ReclaimComplete => complete_answer(reclaim_complete_results(results)),
        MdsAsk::Open => open_answer(open_results(results)),
        MdsAsk::LayoutGet => layout_answer(layout_get_results(results)),
        MdsAsk::DeviceInfo { count } => devices_answer(device_info_results(*count, results)),
        MdsAsk::Write => write_answer(write_results(results)),
        MdsAsk::Read { at, count } => read_answer(read_results(*at, *count, results)),
        MdsAsk::LayoutReturn => return_answer(layout_return_results(results)),
        MdsAsk::Renew => renew_answer(renew_results(results)),
    }
}

/// What a compound of this status says.
fn compound_answer<'a>(ask: &MdsAsk, status: Stat4, results: CompoundResults<'a>) -> MdsAnswer<'a>
    ensures { plain_mds_answer result ≡ compound_answer ask.now (stat4_number status) (contents resop4 op_res_value results.entry.place) }
{
    if status.number() == 0 {
        results_of(ask, results)
    } else {
        MdsAnswer::Refused(status)
    }
}

/// A reply that no server gives by the standard.
fn odd_reply<'a>() -> MdsReply<'a>
    ensures { plain_mds_reply result ≡ odd_mds_reply }
{
    MdsReply {
        slot: SlotReport::Unknown,
        answer: odd_results(),
    }
}

/// What the bytes of a compound's result say.
fn compound_reply<'a>(ask: &MdsAsk, bytes: &'a [u8]) -> MdsReply<'a>
    ensures { plain_mds_reply result ≡ compound_reply ask.now (whole bytes.now (reading compound4_res bytes.now 0)) }
{
    match CompoundRes::from_bytes(bytes) {
        Ok((status, _, results)) => MdsReply {
            slot: slot_told(ask, results.items),
            answer: compound_answer(ask, status, results.items),
        },
        Err(_) => odd_reply(),
    }
}

/// What the reply comes to, of a call that asked this (RFC 8881, sections 16.2 and 18). The bytes of a READ
/// stay in the record. Takes no memory.
///
/// The slot is told what the first result says, where that is a SEQUENCE's; a call that takes no slot tells
/// it nothing. A compound that is not OK is `Refused` by its status alone.
///
/// `Refused` with 10006, SERVERFAULT: a reply other than SUCCESS (RFC 5531, section 9); a compound that is
/// not in its form, or with bytes behind it; an OK one whose results are not those of the call's
/// operations, in order and each OK; a handle that is no number below 2^32 in eight bytes; more bytes than
/// were asked for, or some past the byte 67,108,864; a layout that is not one alone, for reading and
/// writing and of flexible files, with one to four mirrors on different servers from 1 to 16, each with one
/// data server and one handle of eight bytes, all under one uid for user and group; a device without a
/// universal address over TCP. The addresses of more than four devices are never given.
pub fn mds_reply_of<'a>(ask: &MdsAsk, reply: &Reply<'a>) -> MdsReply<'a>
    ensures { plain_mds_reply result ≡ reply_of_ask ask.now (rpc_reply reply.now) }
{
    match reply.body {
        ReplyBody::Success(results) => compound_reply(ask, results),
        _ => odd_reply(),
    }
}
