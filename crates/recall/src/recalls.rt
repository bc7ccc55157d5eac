//! The recalls that are under way.

ghost use Rattle.std.specs.Prelude.{◌≡◌, ℕ, true, false, [], map, filter, slice_get, slice_set, is_some, Some, IfOk};
ghost use Rattle.recall.specs.Recalls.{is_out, out_at, at_stage, at_tick, after_reply, after_timeout, after_tick, without_file};
ghost use Rattle.recall.specs.Calls.{AsksFor, SendsRecall, WaitsFor};
ghost use Rattle.recall.specs.Entries.{goes_on};

use crate::entries::{
    expired, forget, hold, holder, insert, is_under_way, outstanding, place_for, ready, tick_all,
};
use crate::kept_recall::{Ended, KeptRecall};
use crate::recall::{AskFault, Outcome, Recall, RecallCall, RecallStage};
use cluster_model::{Cred, FileId, MAX_TIMEOUTS};
use ff_xdr::NoMemory;
use nfs4_types::Stat4;
use std::alloc::Global;
use std::marker::Model;

/// The recalls of layouts that a metadata server has under way, in order of file and uid (RFC 8881, sections 12.5.5.1 and
/// 20.3). At most one callback is outstanding to a client. Times are seconds, and a recall is given up once more than 90 of
/// them have passed since it was asked. Each call goes through the recalls a fixed number of times.
#[derive(Debug, Drop)]
pub struct Recalls {
    entries: Vec<KeptRecall>,
}

impl Model for Recalls {
    ghost use Rattle.std.specs.Prelude.{List};
    ghost use Rattle.recall.specs.declared.recall.Recall.{Recall};

    ghost Value = { List Recall };

    ghost use Rattle.recall.specs.Entries.{recalls_of, IsRecallTable};

    ghost view = { λ s. recalls_of s.entries.items };

    ghost invariant = { λ s. IsRecallTable s.entries.items };
}

impl Recalls {
    /// No recalls.
    ///
    /// # Errors
    /// `NoMemory` where memory is wanted.
    pub fn new(alloc: Global) -> Result<Recalls, NoMemory>
        ensures { IfOk result (λ r. r ≡ []) }
    {
        Ok(Recalls {
            entries: Vec::new(alloc),
        })
    }

    /// A recall of the layout of this file, under the uid of its period, begins: its callback to this client waits.
    ///
    /// # Errors
    /// `Asked` where one of this grant is under way, `NoMemory` where memory is wanted. Nothing has changed then.
    pub fn ask(&mut self, file: FileId, cred: Cred, client: u64, now: u64) -> Result<(), AskFault>
        ensures { AsksFor self.old file cred client now result self.new }
    {
        if is_under_way(file, cred, self.entries.as_slice()) {
            return Err(AskFault::Asked);
        }
        let recall = Recall {
            file,
            cred,
            client,
            asked: now,
            stage: RecallStage::Waits,
        };
        let held_by = holder(client, self.entries.as_slice());
        let place = place_for(recall, self.entries.as_slice());
        // by hand, since no clause says which error `?` makes of it
        if let Err(e) = insert(place, KeptRecall { recall, held_by }, &mut self.entries) {
            return Err(AskFault::NoMemory(e));
        }
        Ok(())
    }

    /// The callback of the first recall that waits and to whose client none is outstanding; `None` where there is no such
    /// recall. It is outstanding from now on under this number, under which the caller has none outstanding.
    pub fn next_call(&mut self, xid: u32) -> Option<RecallCall>
        ensures { SendsRecall self.old xid result self.new }
    {
        let place = ready(self.entries.as_slice())?;
        let recall = self.entries[place].recall;
        let held_by = Some((recall.file, recall.cred));
        let stage = RecallStage::Out { xid, timeouts: 0 };
        let recall = Recall { stage, ..recall };
        self.entries[place] = KeptRecall { recall, held_by };
        hold(recall.client, held_by, self.entries.as_mut_slice());
        Some(RecallCall {
            file: recall.file,
            cred: recall.cred,
            client: recall.client,
            xid,
        })
    }

    /// The file of the recall whose callback `next_call` would send.
    pub fn waiting_file(&self) -> Option<FileId>
        ensures { (xid : ℕ) → WaitsFor self.now xid result }
    {
        let place = ready(self.entries.as_slice())?;
        Some(self.entries[place].recall.file)
    }

    /// A callback of this number is outstanding.
    pub fn is_outstanding(&self, xid: u32) -> bool
        ensures { result ≡ is_some (out_at self.now xid) }
    {
        outstanding(xid, self.entries.as_slice()).is_some()
    }

    /// What the answer to the callback of this number comes to: `Stranger` where none is outstanding. OK: the client is to
    /// return its layout. NOMATCHING_LAYOUT: the recall is over. Behind any other status the client is asked again at the
    /// next tick (RFC 8881, section 20.3.3).
    pub fn on_reply(&mut self, xid: u32, status: Stat4) -> Outcome
        ensures { record { recalls = self.new; outcome = result } ≡ after_reply self.old xid status }
    {
        let Some(place) = outstanding(xid, self.entries.as_slice()) else {
            return Outcome::Stranger;
        };
        let recall = self.entries[place].recall;
        match status {
            Stat4::Ok => {
                self.rest(place, recall, RecallStage::Agreed);
                Outcome::Agreed
            }
            Stat4::NoMatchingLayout => {
                self.forget(Ended::Grant(recall.file, recall.cred));
                Outcome::NoLayout(recall.file, recall.cred)
            }
            _ => {
                self.rest(place, recall, RecallStage::Later);
                Outcome::Waiting
            }
        }
    }

    /// What a timeout of the callback of this number comes to: `Stranger` where none is outstanding, `Waiting` where the
    /// same record is to be sent again, and at the third one `Expired`.
    pub fn on_timeout(&mut self, xid: u32) -> Outcome
        ensures { record { recalls = self.new; outcome = result } ≡ after_timeout self.old xid }
    {
        let Some(place) = outstanding(xid, self.entries.as_slice()) else {
            return Outcome::Stranger;
        };
        let entry = self.entries[place];
        let Recall { file, cred, .. } = entry.recall;
        match entry.recall.stage {
            RecallStage::Out { xid, timeouts } if timeouts < MAX_TIMEOUTS - 1 => {
                let stage = RecallStage::Out {
                    xid,
                    timeouts: timeouts + 1,
                };
                let recall = Recall {
                    stage,
                    ..entry.recall
                };
                self.entries[place] = KeptRecall { recall, ..entry };
                Outcome::Waiting
            }
            RecallStage::Out { .. } => {
                self.forget(Ended::Grant(file, cred));
                Outcome::Expired(file, cred)
            }
            _ => Outcome::Stranger,
        }
    }

    /// Time passes: what waited for this tick is to be sent. The first recall that was asked more than 90 s ago is over, and
    /// told. The server calls again until none is told.
    pub fn tick(&mut self, now: u64) -> Option<(FileId, Cred)>
        ensures { record { recalls = self.new; expired = result } ≡ after_tick self.old now }
    {
        let Some((file, cred)) = expired(now, self.entries.as_slice()) else {
            self.wake();
            return None;
        };
        self.forget(Ended::Grant(file, cred));
        self.wake();
        Some((file, cred))
    }

    /// The file's periods have ended, and so have the recalls of its layouts.
    pub fn end(&mut self, file: FileId)
        ensures { self.new ≡ without_file file self.old }
    {
        self.forget(Ended::File(file));
    }

    /// The callback of this recall, which stands at this place and is outstanding, is so no more.
    fn rest(&mut self, place: usize, recall: Recall, stage: RecallStage)
        requires at { slice_get self.old place ≡ Some recall }
        requires out { is_out recall.stage ≡ true }
        requires over { is_out stage ≡ false }
        ensures { self.new ≡ slice_set self.old place (at_stage stage recall) }
    {
        let recall = Recall { stage, ..recall };
        self.entries[place] = KeptRecall {
            recall,
            held_by: None,
        };
        hold(recall.client, None, self.entries.as_mut_slice());
    }

    /// These recalls are over.
    fn forget(&mut self, ended: Ended)
        ensures { self.new ≡ filter (goes_on ended) self.old }
    {
        forget(ended, &mut self.entries);
    }

    /// What waited for a tick is to be sent.
    fn wake(&mut self)
        ensures { self.new ≡ map at_tick self.old }
    {
        tick_all(self.entries.as_mut_slice());
    }
}
