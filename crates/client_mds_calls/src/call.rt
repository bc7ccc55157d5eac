//! What a client asks of its metadata server, without how it is spelled (RFC 8881, section 18).

use client_file_calls::{FailedMirror, OpenFile};
use cluster_model::FileId;
use nfs4_types::{SessionId, Stateid};

/// A compound of a client.
#[derive(Clone, Copy, Debug, PartialEq, Eq)]
pub enum MdsCall<'a> {
    /// EXCHANGE_ID: who the client is; the verifier tells one start of it from the next (RFC 8881,
    /// section 18.35).
    ExchangeId {
        verifier: u64,
    },
    /// CREATE_SESSION (RFC 8881, section 18.36).
    CreateSession {
        clientid: u64,
        sequence: u32,
    },
    /// A request on slot 0 of a session: SEQUENCE with this number stands before the rest (RFC 8881,
    /// section 18.46).
    OnSlot {
        session: SessionId,
        sequence: u32,
        call: SlotCall<'a>,
    },
}

/// What a request on a slot asks for, behind its SEQUENCE.
#[derive(Clone, Copy, Debug, PartialEq, Eq)]
pub enum SlotCall<'a> {
    /// RECLAIM_COMPLETE: the client has nothing to reclaim (RFC 8881, section 18.51).
    ReclaimComplete,
    /// OPEN in the root, UNCHECKED, for reading and writing, and GETFH (RFC 8881, section 18.16).
    Open {
        name: &'a str,
    },
    /// LAYOUTGET of a flexible-file layout for reading and writing (RFC 8881, section 18.43).
    LayoutGet {
        file: OpenFile,
    },
    /// GETDEVICEINFO of the devices of these data servers, in this order (RFC 8881, section 18.40).
    DeviceInfo {
        servers: &'a [u32],
    },
    /// WRITE through the metadata server, FILE_SYNC (RFC 8881, section 18.32).
    Write {
        file: OpenFile,
        at: u64,
        bytes: &'a [u8],
    },
    /// READ through the metadata server of at most `count` bytes (RFC 8881, section 18.22).
    Read {
        file: OpenFile,
        at: u64,
        count: u32,
    },
    /// LAYOUTRETURN of this layout of a file, with a report of the mirrors that failed (RFC 8881,
    /// section 18.44; RFC 8435, section 9.3).
    LayoutReturn {
        file: FileId,
        stateid: Stateid,
        failed: &'a [FailedMirror],
    },
    /// Nothing more: the SEQUENCE alone renews the lease.
    Renew,
}
