//! The kinds of parts.

use part_calls::{DevicesRows, DsCallsRows, FramesRows, MdsCallsRows};
use part_entries::EntryRows;
use part_grants::{LayoutsRows, ResultsRows};
use part_log::GateLogRows;
use part_mds::{FileRows, OpensRows, OperationRows};
use part_mds_bytes::{MdsReceiveRows, RecallCallsRows};
use part_messages::MessageRows;
use part_nodes::{ClientRows, DataFileRows, MdsRows, ServerRows, StoreRows, TryStoreRows};
use part_pages::PagesRows;
use part_runs::{ConfigRows, LineRows, RunRows};
use part_state::{
    CbSlotRows, CopyRows, ExtentsRows, FenceRows, FileStateRows, MdsReadRows, MdsWriteRows,
    MirrorsRows, RecallRows, SessionsRows, WriterRows,
};
use row_words::Part;
use std::alloc::Global;

/// Who plays rows on a part of whatever kind.
pub trait Player {
    /// Plays them on a part on which no call was made.
    fn play<P: Part>(&mut self, part: &mut P);
}

/// Has the rows played on this part.
fn on<P: Part + Drop, V: Player>(player: &mut V, part: P) -> bool {
    let mut part = part;
    player.play(&mut part);
    true
}

/// Parts that keep states. Like the next two it answers whether there is such a kind.
fn on_state<V: Player>(alloc: Global, kind: &str, player: &mut V) -> bool {
    match kind {
        "cbslot" => on(player, CbSlotRows::new()),
        "copy" => on(player, CopyRows::new()),
        "extents" => on(player, ExtentsRows::new(alloc)),
        "fence" => on(player, FenceRows::new()),
        "file" => on(player, FileRows::new()),
        "filestate" => on(player, FileStateRows::new()),
        "gatelog" => on(player, GateLogRows::new(alloc)),
        "mdsread" => on(player, MdsReadRows::new()),
        "mdswrite" => on(player, MdsWriteRows::new()),
        "mirrors" => on(player, MirrorsRows::new()),
        "opens" => on(player, OpensRows::new()),
        "pages" => on(player, PagesRows::new(alloc)),
        "recalls" => on(player, RecallRows::new()),
        "sessions" => on(player, SessionsRows::new(alloc)),
        "writer" => on(player, WriterRows::new()),
        _ => false,
    }
}

/// Machines, runs of the program, and the lines that it reads.
fn on_nodes<V: Player>(alloc: Global, kind: &str, player: &mut V) -> bool {
    match kind {
        "client" => on(player, ClientRows::new(alloc)),
        "config" => on(player, ConfigRows),
        "datafile" => on(player, DataFileRows::new(alloc)),
        "line" => on(player, LineRows),
        "mds" => on(player, MdsRows::new(alloc)),
        "run" => on(player, RunRows),
        "server" => on(player, ServerRows::new(alloc)),
        "store" => on(player, StoreRows::new(alloc)),
        "trystore" => on(player, TryStoreRows),
        _ => false,
    }
}

/// Messages, calls, streams and entries.
fn on_messages<V: Player>(alloc: Global, kind: &str, player: &mut V) -> bool {
    match kind {
        "devices" => on(player, DevicesRows::new(alloc)),
        "dscalls" => on(player, DsCallsRows),
        "entry" => on(player, EntryRows),
        "frames" => on(player, FramesRows::new(alloc)),
        "layouts" => on(player, LayoutsRows),
        "mdscalls" => on(player, MdsCallsRows),
        "mdsreceive" => on(player, MdsReceiveRows),
        "message" => on(player, MessageRows),
        "operations" => on(player, OperationRows),
        "recallcalls" => on(player, RecallCallsRows),
        "results" => on(player, ResultsRows::new()),
        _ => false,
    }
}

/// Has rows played on a new part of a kind; answers whether there is such a kind.
pub fn on_kind<V: Player>(alloc: Global, kind: &str, player: &mut V) -> bool {
    if on_state(alloc, kind, player) {
        return true;
    }
    if on_nodes(alloc, kind, player) {
        return true;
    }
    on_messages(alloc, kind, player)
}
