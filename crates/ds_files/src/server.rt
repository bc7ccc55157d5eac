//! A data server.

ghost use Rattle.std.specs.Prelude.{◌≡◌, ◌+◌, ◌<◌, ◌≤◌, ◌^◌, ◌↔◌, IfOk, OnOk, OnErr, Some, None, Err, length, option_copied, slice_get};
ghost use Rattle.rpc_record.specs.Rpc.{plain_credential};
ghost use Rattle.nfs3_wire.specs.Calls.{plain_call};
ghost use Rattle.cluster_model.specs.Server.{new_server, preset_server, restart_of, server_after, max_ticks};
ghost use Rattle.ds_files.specs.Presets.{preset_after};
ghost use Rattle.ds_files.specs.Stored.{stored_at};
ghost use Rattle.ds_procedures.specs.Steps.{step_of};
ghost use Rattle.ds_procedures.specs.ServerBases.{IsServer, server_of};
ghost use Rattle.ds_procedures.specs.Answer.{answer_of};
ghost use Rattle.ds_procedures.specs.CodePlans.{plain_effect};
ghost use Rattle.ds_files.specs.Receive.{Asked, received, outcome_of};
ghost use Rattle.ds_files.specs.Decisions.{CanDo, Decides, DecidesCall};
ghost use Rattle.ds_files.specs.Laws.{IsRefusedReply, IsTurnedAway};
ghost use Rattle.ds_files.specs.declared.logging.Logging.TheVariants.{Off};
ghost use Rattle.ds_files.specs.Posts.{Acts, IsAsBefore, outcome_made};

use crate::carry::carry_out;
use crate::decision::{CallDecision, Decision};
use crate::entered::{entries_made, entries_of};
use crate::logging::Logging;
use crate::receive::receive;
use crate::received::Received;
use crate::record::{encode, post, success, take_back};
use crate::restart::restart_server;
use cluster_model::{NodeId, Outbox, Piece, Tick, Times};
use data_file::DataFile;
use ds_procedures::{Answer3, Effect, Names, ServerBase, plan_of};
use ff_xdr::NoMemory;
use nfs3_wire::Call3;
use rpc_record::AuthSys;
use std::alloc::{AllocError, Global};
use std::marker::Model;
use thiserror::Error;

/// The last boot number.
const LAST_BOOT: u32 = u32::MAX;

/// Why a restart is refused.
#[derive(Clone, Copy, Debug, PartialEq, Eq, Error)]
pub enum RestartFault {
    /// The boot number is the last that there is.
    #[error("the boot number is the last that there is")]
    BootsSpent,
    /// Memory was wanted.
    #[error("memory was wanted")]
    NoMemory,
}

impl From<AllocError> for RestartFault {
    ghost use Rattle.std.specs.Prelude.{◌≡◌};
    ghost use Rattle.ds_files.specs.declared.server.RestartFault.TheVariants.{NoMemory};

    ghost from_gives = { λ _ e. e ≡ NoMemory };

    fn from(_: AllocError) -> RestartFault {
        RestartFault::NoMemory
    }
}

/// A data server of NFSv3: a root and its files.
#[derive(Drop)]
pub struct DataServer {
    alloc: Global,
    head: ServerBase,
    files: Vec<DataFile>,
}

impl Model for DataServer {
    ghost use Rattle.cluster_model.specs.Server.{ServerState};
    ghost use Rattle.ds_procedures.specs.ServerBases.{server_of, IsServer};

    ghost Value = { ServerState };

    ghost view = { λ d. server_of d.head d.files.items };

    ghost invariant = { λ d. IsServer d.head d.files.items };
}

impl DataServer {
    /// The data file of a fileid, where there is one; the root is none.
    pub fn file(&self, fileid: u64) -> Option<&DataFile>
        ensures { option_copied result ≡ stored_at self.now.files fileid }
    {
        let place = fileid.checked_sub(2)?;
        self.files.get(place as usize)
    }

    /// How many data files there are: so few that each has a fileid, and the next one too.
    pub fn file_count(&self) -> usize
        ensures exact { result ≡ length self.now.files }
        ensures bounded { result + 2 < 2 ^ 64 }
    {
        self.files.len()
    }

    /// The name in the root of the data file at an index, where there is one.
    pub fn name(&self, index: usize) -> Option<&[u8]>
        ensures { option_copied result ≡ slice_get self.now.names index }
    {
        self.head.names.at(index)
    }

    /// The root's times.
    pub fn root(&self) -> Times
        ensures { result ≡ self.now.root }
    {
        self.head.root
    }

    /// The last tick that was given, of count 0 where none was in this boot.
    pub fn clock(&self) -> Tick
        ensures { result ≡ self.now.clock }
    {
        self.head.clock
    }

    /// A server of these parts. Takes no memory.
    pub fn of_parts(alloc: Global, head: ServerBase, files: Vec<DataFile>) -> DataServer
        requires { IsServer head files.items }
        ensures { result ≡ server_of head files.items }
    {
        DataServer { alloc, head, files }
    }

    /// A root and no files, by the server's number and its boot number, which is at least 1. Takes no
    /// memory.
    pub fn new(alloc: Global, number: u32, boot: u32) -> DataServer
        requires { 1 ≤ boot }
        ensures { result ≡ new_server number boot }
    {
        let start = Tick { boot, count: 0 };
        let root = Times {
            atime: start,
            mtime: start,
            ctime: start,
        };
        let head = ServerBase {
            number,
            clock: start,
            root,
            names: Names::new(alloc),
            total: 0,
        };
        DataServer {
            alloc,
            head,
            files: Vec::new(alloc),
        }
    }

    /// Number 1 in its first boot, with one empty file: name `m1`, fileid 2, owner and group 65,536, mode
    /// 0640, made at the first tick.
    pub fn preset(alloc: Global) -> Result<DataServer, NoMemory>
        ensures { IfOk result (λ server. server ≡ preset_server) }
    {
        DataServer::preset_after(alloc, 1)
    }

    /// The same, once it gave so many ticks: the first to the file, and the others to changes of which
    /// nothing is left to see. There are 999,999,999 ticks in a boot.
    pub fn preset_after(alloc: Global, count: u32) -> Result<DataServer, NoMemory>
        requires { (1 ≤ count) × (count ≤ max_ticks) }
        ensures { IfOk result (λ server. server ≡ preset_after count) }
    {
        let start = Tick { boot: 1, count: 0 };
        let first = Tick { boot: 1, count: 1 };
        let file = DataFile::new(alloc, 65_536, 65_536, 0o640, first);
        let mut files = Vec::new(alloc);
        files.push(file)?;
        let root = Times {
            atime: start,
            mtime: first,
            ctime: first,
        };
        let mut names = Names::new(alloc);
        names.add(b"m1")?;
        let head = ServerBase {
            number: 1,
            clock: Tick { boot: 1, count },
            root,
            names,
            total: 0,
        };
        Ok(DataServer { alloc, head, files })
    }

    /// What a call by a credential comes to, by the rule of a data server. Nothing is changed.
    pub fn decide_call<'c>(
        &self,
        call: &Call3<'c>,
        cred: &AuthSys<'_>,
    ) -> Result<CallDecision<'c>, NoMemory>
        ensures { IfOk result (λ decision. DecidesCall self.now (plain_call call.now) (plain_credential cred.now) decision.answer (plain_effect decision.effect)) }
    {
        let plan = plan_of(self.alloc, &self.head, &self.files, call, cred);
        let effect = plan.effect;
        let entries = entries_of(self.alloc, &self.head, &self.files, &effect, cred.uid)?;
        let answer = plan.response.keep(self.alloc, entries)?;
        Ok(CallDecision { answer, effect })
    }

    /// What a call by a credential with the number `xid` comes to. Nothing is changed.
    fn decide_asked<'m>(
        &self,
        xid: u32,
        call: &Call3<'m>,
        cred: &AuthSys<'_>,
        logging: Logging,
    ) -> Result<Decision<'m>, NoMemory>
        ensures { IfOk result (λ decision. Decides self.now (Asked xid (plain_call call.now) (plain_credential cred.now)) logging decision.reply decision.entries.items (plain_effect decision.effect)) }
    {
        let plan = plan_of(self.alloc, &self.head, &self.files, call, cred);
        let effect = plan.effect;
        let reply = success(self.alloc, xid, &plan.response)?;
        let entries = entries_made(
            logging,
            self.alloc,
            &self.head,
            &self.files,
            &effect,
            cred.uid,
        )?;
        Ok(Decision {
            reply: Some(reply),
            entries,
            effect,
        })
    }

    /// What a record comes to: the reply, the entries of the step where a journal is kept, and what is
    /// to be done. Nothing is changed.
    #[tactic(auto, using(crate::proofs::Journals::none_made))]
    pub fn decide<'m>(&self, message: &'m [u8], logging: Logging) -> Result<Decision<'m>, NoMemory>
        ensures { IfOk result (λ decision. Decides self.now (received message.now) logging decision.reply decision.entries.items (plain_effect decision.effect)) }
    {
        match receive(message) {
            Received::Silent => Ok(Decision {
                reply: None,
                entries: Vec::new(self.alloc),
                effect: Effect::Nothing,
            }),
            Received::Refused(reply) => {
                let bytes = encode(self.alloc, &reply)?;
                Ok(Decision {
                    reply: Some(bytes),
                    entries: Vec::new(self.alloc),
                    effect: Effect::Nothing,
                })
            }
            Received::Asked { xid, call, cred } => self.decide_asked(xid, &call, &cred, logging),
        }
    }

    /// Does what was decided. At an error nothing has changed.
    pub fn carry_out(&mut self, effect: &Effect<'_>) -> Result<(), NoMemory>
        requires { CanDo self.old (plain_effect effect.now) }
        ensures ok { OnOk result (self.new ≡ server_after self.old (plain_effect effect.now)) }
        ensures err { OnErr result (self.new ≡ self.old) }
    {
        carry_out(self.alloc, &mut self.head, &mut self.files, effect)
    }

    /// Does a call by a credential, by the rule of a data server. Refusals are answers, and change
    /// nothing. At an error nothing has changed.
    pub fn apply(&mut self, call: &Call3<'_>, cred: &AuthSys<'_>) -> Result<Answer3, NoMemory>
        ensures answer { IfOk result (λ answer. answer ≡ answer_of (step_of self.old (plain_call call.now) (plain_credential cred.now))) }
        ensures ok { OnOk result (self.new ≡ (step_of self.old (plain_call call.now) (plain_credential cred.now)).server) }
        ensures err { OnErr result (self.new ≡ self.old) }
        ensures refused { IfOk result (λ answer. IsRefusedReply answer.reply → self.new ≡ self.old) }
    {
        let decision = self.decide_call(call, cred)?;
        self.carry_out(&decision.effect)?;
        Ok(decision.answer)
    }

    /// Starts again, in the next boot. These pieces of the pending writes had reached the disk, in this
    /// order; all else that was not stable is gone. At an error nothing has changed.
    pub fn restart(&mut self, pieces: &[Piece]) -> Result<(), RestartFault>
        ensures ok { OnOk result (restart_of self.old pieces.now ≡ Some self.new) }
        ensures spent { result ≡ Err RestartFault.BootsSpent ↔ restart_of self.old pieces.now ≡ None }
        ensures err { OnErr result (self.new ≡ self.old) }
    {
        if self.head.clock.boot == LAST_BOOT {
            return Err(RestartFault::BootsSpent);
        }
        restart_server(self.alloc, &mut self.head, &mut self.files, pieces)?;
        Ok(())
    }

    /// Takes a record from a node, and puts out the reply to it, and the entries of the step where a
    /// journal is kept. At an error all is as before.
    fn take_record(
        &mut self,
        from: NodeId,
        message: &[u8],
        logging: Logging,
        out: &mut Outbox,
    ) -> Result<(), NoMemory>
        ensures ok { OnOk result (Acts (outcome_made logging (outcome_of self.old message.now)) from self.new out.old out.new) }
        ensures err { OnErr result ((self.new ≡ self.old) × IsAsBefore out.old out.new) }
        ensures turned_away { IsTurnedAway self.old (received message.now) → (self.new ≡ self.old) × (out.new.entries.items ≡ out.old.entries.items) }
    {
        let decision = self.decide(message, logging)?;
        let effect = decision.effect;
        let (sends, entered) = (out.sends.len(), out.entries.len());
        post(out, from, decision.reply, decision.entries)?;
        if let Err(error) = self.carry_out(&effect) {
            take_back(out, sends, entered);
            return Err(error);
        }
        Ok(())
    }

    /// Takes a record from a node, and puts out the reply to it and the entries of the step. Nothing
    /// is put out for a record that is no call. A record that is refused changes nothing and makes no
    /// entry. At an error all is as before.
    pub fn on_record(
        &mut self,
        from: NodeId,
        message: &[u8],
        out: &mut Outbox,
    ) -> Result<(), NoMemory>
        ensures ok { OnOk result (Acts (outcome_of self.old message.now) from self.new out.old out.new) }
        ensures err { OnErr result ((self.new ≡ self.old) × IsAsBefore out.old out.new) }
        ensures turned_away { IsTurnedAway self.old (received message.now) → (self.new ≡ self.old) × (out.new.entries.items ≡ out.old.entries.items) }
    {
        self.take_record(from, message, Logging::On, out)
    }

    /// Takes a record from a node, and puts out the reply to it as `on_record` does, but no entry, for
    /// a server whose journal nobody keeps: so a WRITE's bytes are copied into the file alone. At an
    /// error all is as before.
    pub fn answer_record(
        &mut self,
        from: NodeId,
        message: &[u8],
        out: &mut Outbox,
    ) -> Result<(), NoMemory>
        ensures ok { OnOk result (Acts (outcome_made Off (outcome_of self.old message.now)) from self.new out.old out.new) }
        ensures err { OnErr result ((self.new ≡ self.old) × IsAsBefore out.old out.new) }
        ensures turned_away { IsTurnedAway self.old (received message.now) → self.new ≡ self.old }
    {
        self.take_record(from, message, Logging::Off, out)
    }
}
