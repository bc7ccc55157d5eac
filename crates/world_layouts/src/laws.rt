//! The layouts of the clients of a world.

ghost use Rattle.world_layouts.specs.LayoutsInOrder.{EachWorldIsInOrder};

use client_mds_calls::every_mds_call;
use client_records::client_records;
use client_sessions::{client_sessions, fitting_calls, session_rounds};
use mds_laws::mds_run_law;
use mds_receive::receive_law;
use mds_replies::{answers_law, entries_law, id_law, order_law, period_law, replies_law};
use mds_returns::returned_ends;
use mds_session_order::session_order;
use nfs4_compound::every_listing;
use rpc_record::every_message;

/// In every world that is told by its nodes and has room:
///
/// - of a life, one request has a number of a session (RFC 8881, section 2.10.6.1);
/// - what a client was granted, the journal had granted to it, while the mirrors of the grant were live (RFC 8881, section
///   18.43; RFC 8435, section 2.2);
/// - a uid is of one life of one client;
/// - a period that ends as returned was given back by a life that it was granted to (RFC 8881, section 18.44);
/// - and where a LAYOUTRETURN was accepted and kept a mirror, the period has ended clean.
pub fn world_layouts()
    ensures in_order { EachWorldIsInOrder }
{
    client_records();
    client_sessions();
    fitting_calls();
    session_rounds();
    every_mds_call();
    mds_run_law();
    receive_law();
    answers_law();
    entries_law();
    id_law();
    order_law();
    period_law();
    replies_law();
    returned_ends();
    session_order();
    every_listing();
    every_message();
}
