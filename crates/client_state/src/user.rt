//! Answers to the user.

ghost use Rattle.std.specs.Prelude.{◌≡◌, IfOk, OnOk};
ghost use Rattle.client_state.specs.ClientQueue.{answers_user, refuses_request, answers_committed};
ghost use Rattle.client_state.specs.QueueSteps.{HasRun};

use crate::state::State;
use cluster_model::{Entry, FailCause, Outbox, UserAnswer};
use ff_xdr::NoMemory;
use std::alloc::Global;

/// The same answer once more, for the journal.
fn copy_of(alloc: Global, answer: &UserAnswer) -> Result<UserAnswer, NoMemory>
    ensures { IfOk result (λ copy. copy ≡ answer.now) }
{
    match answer {
        UserAnswer::Opened(file) => Ok(UserAnswer::Opened(*file)),
        UserAnswer::Written => Ok(UserAnswer::Written),
        UserAnswer::Committed { writes } => Ok(UserAnswer::Committed { writes: *writes }),
        UserAnswer::Bytes { eof, bytes } => {
            let bytes = bytes.share(alloc)?;
            Ok(UserAnswer::Bytes { eof: *eof, bytes })
        }
        UserAnswer::Returned => Ok(UserAnswer::Returned),
        UserAnswer::Failed(cause) => Ok(UserAnswer::Failed(*cause)),
    }
}

impl State {
    /// Answers the user; the answer is an entry of the journal too.
    pub fn answer(&mut self, answer: UserAnswer, out: &mut Outbox) -> Result<(), NoMemory>
        ensures { OnOk result (HasRun (answers_user answer self.old) out.old self.new out.new) }
    {
        let copy = copy_of(self.alloc, &answer)?;
        self.answers.push_back(copy)?;
        out.entries.push(Entry::Answer {
            client: self.number,
            answer,
        })?;
        Ok(())
    }

    /// The request is refused by this status of NFS.
    pub fn refuse(&mut self, status: u32, out: &mut Outbox) -> Result<(), NoMemory>
        ensures { OnOk result (HasRun (refuses_request status self.old) out.old self.new out.new) }
    {
        self.answer(UserAnswer::Failed(FailCause::Refused(status)), out)
    }

    /// The commit is done: so many writes were told since the last such answer.
    pub fn answer_committed(&mut self, out: &mut Outbox) -> Result<(), NoMemory>
        ensures { OnOk result (HasRun (answers_committed self.old) out.old self.new out.new) }
    {
        let writes = self.told;
        self.told = 0;
        self.answer(UserAnswer::Committed { writes }, out)
    }
}
