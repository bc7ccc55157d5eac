//! Calls to data servers that are kept.

ghost use Rattle.std.specs.Prelude.{◌≡◌, ◌≤◌, length, IfOk};
ghost use Rattle.cluster_model.specs.declared.limits.TheConstants.{PIECE_SIZE};
ghost use Rattle.cluster_model.specs.DsCalls.{plain_ds_call, data_in};
ghost use Rattle.awaited_calls.specs.KeptCalls.{kept_value};

use cluster_model::{Cred, DsCall, Tick};
use ff_xdr::{Data, NoMemory};
use std::alloc::Global;
use std::marker::Model;

/// A call of one of the five procedures, with its own bytes (RFC 1813, section 3.3).
#[derive(Drop)]
enum KeptBody {
    Create {
        name: u64,
        owner: Cred,
    },
    SetAttr {
        fileid: u64,
        owner: Cred,
        guard: Tick,
    },
    Write {
        fileid: u64,
        at: u64,
        synced: bool,
        bytes: Data,
    },
    Commit {
        fileid: u64,
    },
    Read {
        fileid: u64,
        at: u64,
        count: u32,
    },
}

/// A call to a data server that is kept, to be sent again (RFC 5531, section 9; RFC 1813, section 3.3). Its data has at most
/// `PIECE_SIZE` bytes, of which it has a copy. Clauses see the call.
#[derive(Drop)]
pub struct KeptCall {
    call: KeptBody,
}

impl Model for KeptCall {
    ghost use Rattle.std.specs.Prelude.{◌≤◌, length};
    ghost use Rattle.cluster_model.specs.declared.limits.TheConstants.{PIECE_SIZE};
    ghost use Rattle.cluster_model.specs.DsCalls.{DsCallValue, data_in};
    ghost use Rattle.awaited_calls.specs.KeptCalls.{kept_value};

    ghost Value = { DsCallValue };

    ghost view = { λ k. kept_value k.call };

    ghost invariant = { λ k. length (data_in (kept_value k.call)) ≤ PIECE_SIZE };
}

impl KeptCall {
    /// A copy of a call. Takes memory for the data of a WRITE alone.
    ///
    /// # Errors
    /// `NoMemory` where memory is wanted.
    pub fn of(alloc: Global, call: &DsCall<'_>) -> Result<KeptCall, NoMemory>
        requires { length (data_in (plain_ds_call call.now)) ≤ PIECE_SIZE }
        ensures { IfOk result (λ kept. kept ≡ plain_ds_call call.now) }
    {
        let call = KeptBody::of(alloc, call)?;
        Ok(KeptCall { call })
    }

    /// The call, as it is sent. Takes no memory.
    pub fn lend(&self) -> DsCall<'_>
        ensures few { length (data_in (plain_ds_call result)) ≤ PIECE_SIZE }
        ensures lends { plain_ds_call result ≡ self.now }
    {
        self.call.lend()
    }
}

impl KeptBody {
    /// The call, with a copy of its bytes.
    fn of(alloc: Global, call: &DsCall<'_>) -> Result<KeptBody, NoMemory>
        ensures { IfOk result (λ kept. kept_value kept ≡ plain_ds_call call.now) }
    {
        let kept = match *call {
            DsCall::Create { name, owner } => KeptBody::Create { name, owner },
            DsCall::SetAttr {
                fileid,
                owner,
                guard,
            } => KeptBody::SetAttr {
                fileid,
                owner,
                guard,
            },
            DsCall::Write {
                fileid,
                at,
                synced,
                bytes,
            } => KeptBody::Write {
                fileid,
                at,
                synced,
                bytes: Data::of(alloc, bytes)?,
            },
            DsCall::Commit { fileid } => KeptBody::Commit { fileid },
            DsCall::Read { fileid, at, count } => KeptBody::Read { fileid, at, count },
        };
        Ok(kept)
    }

    /// The call, whose bytes are lent.
    fn lend(&self) -> DsCall<'_>
        ensures { plain_ds_call result ≡ kept_value self.now }
    {
        match self {
            KeptBody::Create { name, owner } => DsCall::Create {
                name: *name,
                owner: *owner,
            },
            KeptBody::SetAttr {
                fileid,
                owner,
                guard,
            } => DsCall::SetAttr {
                fileid: *fileid,
                owner: *owner,
                guard: *guard,
            },
            KeptBody::Write {
                fileid,
                at,
                synced,
                bytes,
            } => DsCall::Write {
                fileid: *fileid,
                at: *at,
                synced: *synced,
                bytes: bytes.bytes(),
            },
            KeptBody::Commit { fileid } => DsCall::Commit { fileid: *fileid },
            KeptBody::Read { fileid, at, count } => DsCall::Read {
                fileid: *fileid,
                at: *at,
                count: *count,
            },
        }
    }
}
