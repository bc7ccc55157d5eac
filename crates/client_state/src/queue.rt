//! The requests of the user, in order.

ghost use Rattle.std.specs.Prelude.{◌≡◌, IfOk};
ghost use Rattle.client_state.specs.ClientQueue.{run_queue};
ghost use Rattle.client_state.specs.QueueSteps.{HasRunQueue};

use crate::head::JudgedHead;
use crate::state::State;
use client_mds_calls::MdsAsk;
use cluster_model::Outbox;
use ff_xdr::NoMemory;

impl State {
    /// The requests are done in order, up to the first that waits. Answers what that one wants asked of the metadata
    /// server. After `NoMemory` nothing is said.
    pub fn run_queue(&mut self, out: &mut Outbox) -> Result<Option<MdsAsk>, NoMemory>
        ensures { IfOk result (λ wants. HasRunQueue (run_queue self.old) out.old wants self.new out.new) }
    {
        while let Some(request) = self.queue.pop_front() {
            match self.judge_head(&request, out)? {
                JudgedHead::Done => self.waits = false,
                JudgedHead::Waits => {
                    self.keep_head(request)?;
                    return Ok(None);
                }
                JudgedHead::Asks(ask) => {
                    self.keep_head(request)?;
                    return Ok(Some(ask));
                }
            }
        }
        Ok(None)
    }
}
