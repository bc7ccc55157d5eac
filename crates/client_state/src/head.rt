//! The request at the head of the queue.

ghost use Rattle.std.specs.Prelude.{◌≡◌, ◌≤◌, ◌+◌, length, IfOk, OnOk};
ghost use Rattle.std.specs.Bool.{OnFalse};
ghost use Rattle.cluster_model.specs.declared.limits.TheConstants.{MAX_FILE};
ghost use Rattle.client_state.specs.ClientQueue.{IsDone, answers_user, answers_committed, refuses_request, is_past, write_by, layout_ending, behind_return, is_all_told, layout_committing, commit_by, on_open_file, opens_by, head_step, keeps_head};
ghost use Rattle.cluster_model.specs.declared.answer.UserAnswer.TheVariants.{Returned};
ghost use Rattle.client_state.specs.QueueSteps.{HasJudged, writes_under};

use crate::devices::count_unknown;
use crate::request::UserRequest;
use crate::state::State;
use crate::tie::Tie;
use client_mds_calls::{MdsAsk, OpenFile};
use cluster_model::{Entry, MAX_FILE, Outbox, UserAnswer};
use ff_xdr::NoMemory;
use mirror_writer::{WriteBytes, WriteStart};

/// NFS4ERR_INVAL: a file is open (RFC 8881, section 15.1).
pub const INVAL: u32 = 22;

/// NFS4ERR_FBIG: the write would end past the most.
pub const FBIG: u32 = 27;

/// NFS4ERR_NOFILEHANDLE: no file is open.
pub const NOFILEHANDLE: u32 = 10020;

/// What the request at the head came to.
#[derive(Clone, Copy, Debug, PartialEq, Eq)]
pub enum JudgedHead {
    /// It is done.
    Done,
    /// It waits for what is under way.
    Waits,
    /// It waits for what is asked of the metadata server.
    Asks(MdsAsk),
}

/// The write would end past the end of a file.
fn is_past(at: u64, bytes: &WriteBytes) -> bool
    ensures past { result ≡ is_past at bytes.now }
    ensures within { OnFalse result (at + length bytes.now ≤ MAX_FILE) }
{
    at > MAX_FILE - bytes.bytes().len() as u64
}

impl State {
    /// The write is taken under the layout, unless a taken write has one of its places: the layout is given back
    /// first then.
    fn write_under(
        &mut self,
        file: OpenFile,
        at: u64,
        bytes: &WriteBytes,
        out: &mut Outbox,
    ) -> Result<JudgedHead, NoMemory>
        requires { at + length bytes.now ≤ MAX_FILE }
        ensures { IfOk result (λ judged. HasJudged (writes_under self.old file self.old.layout at bytes.now) self.old out.old judged self.new out.new) }
    {
        let Some(layout) = &mut self.layout else {
            return Ok(JudgedHead::Waits);
        };
        match layout.take(at, bytes) {
            WriteStart::Taken => {}
            WriteStart::Overlap => {
                layout.end();
                return Ok(JudgedHead::Waits);
            }
            WriteStart::NoMemory => return Err(NoMemory),
        }
        let cred = layout.writer.cred();
        let bytes = bytes.data().share(self.alloc)?;
        out.entries.push(Entry::Sent {
            file: file.file,
            cred,
            at,
            bytes,
        })?;
        Ok(JudgedHead::Done)
    }

    /// A write to the mirrors wants a layout in which writes are taken, and the addresses of its devices.
    fn write_by(
        &mut self,
        file: OpenFile,
        at: u64,
        bytes: &WriteBytes,
        out: &mut Outbox,
    ) -> Result<JudgedHead, NoMemory>
        requires { at + length bytes.now ≤ MAX_FILE }
        ensures { IfOk result (λ judged. HasJudged (write_by self.old file self.old.layout at bytes.now) self.old out.old judged self.new out.new) }
    {
        let Some(layout) = &self.layout else {
            return Ok(JudgedHead::Asks(MdsAsk::LayoutGet));
        };
        if !layout.stage.is_writing() {
            return Ok(JudgedHead::Waits);
        }
        let count = count_unknown(&self.devices, &layout.mirrors);
        if count != 0 {
            return Ok(JudgedHead::Asks(MdsAsk::DeviceInfo { count }));
        }
        self.write_under(file, at, bytes, out)
    }

    /// The layout is to be given back, if there is one.
    pub fn end_layout(&mut self)
        ensures { self.new ≡ layout_ending self.old self.old.layout }
    {
        if let Some(layout) = &mut self.layout {
            layout.end();
        }
    }

    /// Each taken write is told.
    fn is_all_told(&self) -> bool
        ensures { result ≡ is_all_told self.now.layout }
    {
        let Some(layout) = &self.layout else {
            return true;
        };
        layout.untold.is_empty()
    }

    /// What was taken under the layout is to be committed.
    fn commit_layout(&mut self)
        ensures { self.new ≡ layout_committing self.old self.old.layout }
    {
        if let Some(layout) = &mut self.layout {
            layout.writer.commit();
        }
    }

    /// The commit at the head is done.
    fn end_commit(&mut self, out: &mut Outbox) -> Result<JudgedHead, NoMemory>
        ensures { IfOk result (λ judged. HasJudged (IsDone (answers_committed self.old)) self.old out.old judged self.new out.new) }
    {
        self.answer_committed(out)?;
        Ok(JudgedHead::Done)
    }

    /// A commit is done where each taken write is told.
    fn commit_by(&mut self, out: &mut Outbox) -> Result<JudgedHead, NoMemory>
        ensures { IfOk result (λ judged. HasJudged (commit_by self.old) self.old out.old judged self.new out.new) }
    {
        if self.is_all_told() {
            return self.end_commit(out);
        }
        self.commit_layout();
        Ok(JudgedHead::Waits)
    }

    /// A return is done where there is no layout.
    fn return_by(&mut self, out: &mut Outbox) -> Result<JudgedHead, NoMemory>
        ensures { IfOk result (λ judged. HasJudged (behind_return (IsDone (answers_user Returned self.old)) self.old self.old.layout) self.old out.old judged self.new out.new) }
    {
        if self.layout.is_some() {
            self.end_layout();
            return Ok(JudgedHead::Waits);
        }
        self.answer(UserAnswer::Returned, out)?;
        Ok(JudgedHead::Done)
    }

    /// The request at the head is refused by this status.
    fn refuse_head(&mut self, status: u32, out: &mut Outbox) -> Result<JudgedHead, NoMemory>
        ensures { IfOk result (λ judged. HasJudged (IsDone (refuses_request status self.old)) self.old out.old judged self.new out.new) }
    {
        self.refuse(status, out)?;
        Ok(JudgedHead::Done)
    }

    /// A request for an open file. What goes to the metadata server waits until the layout is given back.
    fn on_open_file(
        &mut self,
        file: OpenFile,
        request: &UserRequest,
        out: &mut Outbox,
    ) -> Result<JudgedHead, NoMemory>
        ensures { IfOk result (λ judged. HasJudged (on_open_file self.old file request.now) self.old out.old judged self.new out.new) }
    {
        match request {
            UserRequest::Open(_) => self.refuse_head(INVAL, out),
            UserRequest::Write { at, bytes } => {
                if is_past(*at, bytes) {
                    return self.refuse_head(FBIG, out);
                }
                self.write_by(file, *at, bytes, out)
            }
            UserRequest::Through { at, bytes } => {
                if is_past(*at, bytes) {
                    return self.refuse_head(FBIG, out);
                }
                if self.layout.is_some() {
                    self.end_layout();
                    return Ok(JudgedHead::Waits);
                }
                Ok(JudgedHead::Asks(MdsAsk::Write))
            }
            UserRequest::Commit => self.commit_by(out),
            UserRequest::Read { at, count } => Ok(JudgedHead::Asks(MdsAsk::Read {
                at: *at,
                count: *count,
            })),
            UserRequest::Return => self.return_by(out),
        }
    }

    /// What brings the client on to an open file.
    fn opens_by(&self) -> MdsAsk
        ensures { result ≡ opens_by self.now.tie }
    {
        match self.tie {
            Tie::NoClient => MdsAsk::ExchangeId,
            Tie::HasClient { .. } => MdsAsk::CreateSession,
            Tie::HasSession(session) => {
                if session.is_complete {
                    return MdsAsk::Open;
                }
                MdsAsk::ReclaimComplete
            }
        }
    }

    /// The request at the head: whether it is done, and what it waits for.
    pub(crate) fn judge_head(
        &mut self,
        request: &UserRequest,
        out: &mut Outbox,
    ) -> Result<JudgedHead, NoMemory>
        ensures { IfOk result (λ judged. HasJudged (head_step self.old self.old.file request.now) self.old out.old judged self.new out.new) }
    {
        match (self.file, request) {
            (Some(file), request) => self.on_open_file(file, request, out),
            (None, UserRequest::Open(_)) => Ok(JudgedHead::Asks(self.opens_by())),
            (None, _) => self.refuse_head(NOFILEHANDLE, out),
        }
    }

    /// The request stays at the head.
    pub fn keep_head(&mut self, request: UserRequest) -> Result<(), NoMemory>
        ensures { OnOk result (self.new ≡ keeps_head request self.old) }
    {
        self.queue.push_front(request)?;
        Ok(())
    }
}
