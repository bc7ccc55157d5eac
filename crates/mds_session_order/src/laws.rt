//! In which order a metadata server gives ids and sessions, in every run to which clients of this cluster call.

ghost use Rattle.mds_session_order.specs.SessionOrder.{SessionsAreNew, IdsStayGone, ClientsStayGone};

use nfs4_session::table_law;

/// A session that a CREATE_SESSION is answered with is new since the EXCHANGE_ID whose number it has (RFC 8881, section
/// 18.36.4), and where a session that was given is gone its client's id is not given again (sections 8.3 and 18.35.4), and no
/// request on a session of that client takes effect again (section 2.10.6.1).
pub fn session_order()
    ensures new { SessionsAreNew }
    ensures gone { IdsStayGone }
    ensures quiet { ClientsStayGone }
{
    table_law();
}
