//! What was asked of a metadata server as words.

use client_mds_calls::MdsAsk;
use row_words::Words;

/// The kind of a call, with what its answer is held against.
pub fn mds_ask(words: &mut Words<'_>) -> MdsAsk {
    match words.word() {
        "exchange_id" => MdsAsk::ExchangeId,
        "create_session" => MdsAsk::CreateSession,
        "reclaim_complete" => MdsAsk::ReclaimComplete,
        "open" => MdsAsk::Open,
        "layout_get" => MdsAsk::LayoutGet,
        "device_info" => MdsAsk::DeviceInfo {
            count: words.number32(),
        },
        "write" => MdsAsk::Write,
        "read" => MdsAsk::Read {
            at: words.number64(),
            count: words.number32(),
        },
        "layout_return" => MdsAsk::LayoutReturn,
        "renew" => MdsAsk::Renew,
        _ => words.outside(MdsAsk::Open),
    }
}
