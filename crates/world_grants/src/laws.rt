//! The layouts of a cluster's world, each granted once.

ghost use Rattle.world_grants.specs.WorldGrants.{EachWorldGrantsOnce};

use client_mds_calls::every_mds_call;
use client_records::client_records;
use client_sessions::{client_sessions, fitting_calls, session_rounds};
use mds_receive::receive_law;
use mds_replies::{answers_law, effect_law, id_law, order_law, period_law, replies_law};
use mds_reports::slot_reports;
use mds_session_order::session_order;
use nfs4_compound::every_listing;
use rpc_record::every_message;

/// In every world that is told by its nodes and has room, where a data server refuses a holder's call only once its period has
/// ended: two grants under one uid that a life heard are one, and to one LAYOUTGET (RFC 8881, sections 12.5.2 and 18.43; RFC
/// 8435, section 2.2).
pub fn world_grants()
    ensures once { EachWorldGrantsOnce }
{
    client_records();
    client_sessions();
    fitting_calls();
    session_rounds();
    every_mds_call();
    receive_law();
    answers_law();
    effect_law();
    id_law();
    order_law();
    period_law();
    replies_law();
    slot_reports();
    session_order();
    every_listing();
    every_message();
}
