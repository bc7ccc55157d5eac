//! Calls that were sent, and who waits for their answers.

ghost use Rattle.std.specs.Prelude.{◌≡◌, IfOk};
ghost use Rattle.mds_rule.specs.Spelled.{spelled_send};

use crate::kept_call::KeptCall;
use cluster_model::{Cred, FileId, NodeId};
use ds_calls::ds_record;
use ff_xdr::{Data, NoMemory};
use mds_rule::Waiter;
use nfs4_session::BackCall;
use nfs4_types::Stateid;
use recall_calls::recall_record;
use std::alloc::Global;
use std::marker::Model;

/// What went out.
#[derive(Drop)]
pub enum SentTo {
    /// A call to the data server with this number, by this user (RFC 1813, section 3.3).
    ToServer {
        server: u32,
        uid: Cred,
        call: KeptCall,
    },
    /// A callback that recalls the layout of this file with this stateid (RFC 8881, section 20.3).
    ToClient {
        back: BackCall,
        file: FileId,
        stateid: Stateid,
    },
}

/// A call that was sent, and who waits for its answer.
#[derive(Drop)]
pub struct AwaitedCall {
    /// The node that answers it.
    pub node: NodeId,
    /// Its number (RFC 5531, section 9).
    pub xid: u32,
    /// Who waits for the answer.
    pub caller: Waiter,
    /// What went out.
    pub sent: SentTo,
}

impl Model for AwaitedCall {
    ghost use Rattle.mds_rule.specs.MdsStates.{AwaitedCall as AwaitedCallValue};
    ghost use Rattle.awaited_calls.specs.Awaited.{sent_under};

    ghost Value = { AwaitedCallValue };

    ghost view = { λ c. record { node = c.node; xid = c.xid; caller = c.caller; sent = sent_under c.xid c.sent } };
}

impl AwaitedCall {
    /// Its record, the same each time, and the node that it goes to (RFC 5531, section 9).
    ///
    /// # Errors
    /// `NoMemory` where memory is wanted.
    pub fn record(&self, alloc: Global) -> Result<(NodeId, Data), NoMemory>
        ensures { IfOk result (λ sent. sent ≡ spelled_send self.now.sent) }
    {
        match &self.sent {
            SentTo::ToServer { server, uid, call } => {
                let record = ds_record(alloc, self.xid, b"mds", *uid, &call.lend())?;
                Ok((NodeId::Server(*server), record))
            }
            SentTo::ToClient {
                back,
                file,
                stateid,
            } => {
                let record = recall_record(alloc, self.xid, back, *file, *stateid)?;
                Ok((back.node, record))
            }
        }
    }
}
