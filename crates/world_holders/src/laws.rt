//! The part of those who hold a file of a cluster's world.

ghost use Rattle.world_holders.specs.WorldHolders.{EachWorldKeepsParts};

use client_laws::client_run_law;
use client_records::client_records;
use client_sends::client_sends;
use client_sessions::{client_sessions, entered_files};
use mds_laws::own_periods_law;
use world_moves::world_moves;

/// In the journal of a world that its nodes tell and that has order: a write that is taken has bytes, is apart from all that
/// was taken under its uid, and follows no write that strayed and no clean end; one that strays follows no clean end; what is
/// told is covered at each mirror of its layout by WRITE and COMMIT, or its period has ended clean; a period that ends as
/// returned, or as the metadata server's own, leaves nothing uncovered; and what a client sends a data server is a call of a
/// user, a WRITE of what was taken or strayed (RFC 8435, sections 2.2, 5 and 8; RFC 1813, sections 3.3.7 and 3.3.21).
pub fn world_holders()
    ensures parts { EachWorldKeepsParts }
{
    client_run_law();
    client_records();
    client_sends();
    client_sessions();
    entered_files();
    own_periods_law();
    world_moves();
}
