//! One file's state.

ghost use Rattle.std.specs.Prelude.{◌≡◌, ◌≤◌, length, not, true, false, is_some, IsSomeAnd, if◌then◌else◌};
ghost use Rattle.cluster_model.specs.declared.phase.EndCause.TheVariants as cause_of;
ghost use Rattle.cluster_model.specs.declared.phase.Phase.TheVariants as name;
ghost use Rattle.cluster_model.specs.Nodes.{is_mds};
ghost use Rattle.cluster_model.specs.Phases.{begun, free_with, with_live, seen_at, phase_of, holder_of, unreported, end_cause, left_with, after_return, after_revocation, is_last_live, after_loss, after_fence, is_clean};
ghost use Rattle.layout_state.specs.Grants.{Grants, Recalls, holder_to_recall};
ghost use Rattle.layout_state.specs.Returns.{Returns, may_lose};

use crate::grant::{Grant, GrantFault, ReturnFault};
use cluster_model::{
    CopyKind, Cred, EndCause, FenceEnd, LayoutPhase, LayoutState, LeftCause, MirrorId, Mirrors,
    NodeId, Phase, Reported, SPARE_UIDS, Tick,
};
use std::marker::Model;

/// One file at the metadata server. Each call is a row of the table of phases; no call takes memory.
#[derive(Clone, Copy, Debug, PartialEq, Eq)]
pub struct FileState {
    pub(crate) state: LayoutState,
}

impl Model for FileState {
    ghost use Rattle.cluster_model.specs.declared.layout_state.LayoutState.{LayoutState};

    ghost Value = { LayoutState };

    ghost view = { λ f. f.state };

    ghost inverse = { λ s. record { state = s } };

    ghost inverse_ok = { λ f h i. record { state = f.state } };
}

impl FileState {
    /// A file whose mirrors are being made, `wanted` of them, for its first user.
    pub fn making(first: Cred, wanted: u32) -> FileState
        ensures { result ≡ begun first wanted }
    {
        FileState {
            state: LayoutState {
                wanted,
                cred: first,
                live: Mirrors::none(),
                phase: LayoutPhase::Making,
            },
        }
    }

    /// Its mirrors are made, and it is free.
    pub fn made(&mut self, live: Mirrors)
        requires making { phase_of self.old.phase ≡ name.Making }
        requires some { 1 ≤ length live }
        requires wanted { length live ≤ self.old.wanted }
        ensures { self.new ≡ free_with self.old live }
    {
        self.state.live = live;
        self.state.phase = LayoutPhase::Free;
    }

    /// This ctime was last seen at a mirror; nothing where it is not live.
    pub fn saw(&mut self, id: MirrorId, seen: Tick)
        ensures { self.new ≡ with_live self.old (seen_at id seen self.old.live) }
    {
        self.state.live = self.state.live.seen_at(id, seen);
    }

    /// How many mirrors it is to have.
    pub fn wanted(&self) -> u32
        ensures { result ≡ self.now.wanted }
    {
        self.state.wanted
    }

    /// Its phase.
    pub fn phase(&self) -> Phase
        ensures { result ≡ phase_of self.now.phase }
    {
        match self.state.phase {
            LayoutPhase::Making => Phase::Making,
            LayoutPhase::Free => Phase::Free,
            LayoutPhase::Held { .. } => Phase::Held,
            LayoutPhase::Fencing { .. } => Phase::Fencing,
            LayoutPhase::Settling { .. } => Phase::Settling,
            LayoutPhase::Copying { .. } => Phase::Copying,
        }
    }

    /// Its live mirrors, in order.
    pub fn live(&self) -> Mirrors
        ensures { result ≡ self.now.live }
    {
        self.state.live
    }

    /// Who holds it, where it is held.
    pub fn holder(&self) -> Option<NodeId>
        ensures { result ≡ holder_of self.now.phase }
    {
        match self.state.phase {
            LayoutPhase::Held { holder, .. } => Some(holder),
            _ => None,
        }
    }

    /// The user of its period: the owner of its mirrors that the last fence or CREATE set.
    pub fn cred(&self) -> Cred
        ensures { result ≡ self.now.cred }
    {
        self.state.cred
    }

    /// Grants it to a node, where so many users are left to be drawn. The holder gets its grant again.
    ///
    /// # Errors
    /// `Later` where it is not free and the asker does not hold it, `Recalling` where the asker holds it and it is
    /// recalled, `Spent` where it is free and fewer than 65,536 users are left. Nothing changes then.
    pub fn grant(&mut self, node: NodeId, uids_left: u32) -> Result<Grant, GrantFault>
        ensures { Grants self.old node uids_left result self.new }
    {
        let phase = self.state.phase;
        let again = match phase {
            LayoutPhase::Free => {
                if uids_left < SPARE_UIDS {
                    return Err(GrantFault::Spent);
                }
                false
            }
            LayoutPhase::Held { holder, recalled } => {
                if holder != node {
                    return Err(GrantFault::Later(Phase::Held));
                }
                if recalled {
                    return Err(GrantFault::Recalling);
                }
                true
            }
            _ => return Err(GrantFault::Later(self.phase())),
        };
        if !again {
            self.state.phase = LayoutPhase::Held {
                holder: node,
                recalled: false,
            };
        }
        Ok(Grant {
            cred: self.state.cred,
            mirrors: self.state.live,
            again,
        })
    }

    /// Begins a recall of a client's layout; false, with nothing changed, where no client holds it or a recall is under
    /// way.
    pub fn recall(&mut self) -> bool
        ensures { Recalls self.old result self.new (holder_to_recall self.old.phase) }
    {
        match self.state.phase {
            LayoutPhase::Held {
                holder: NodeId::Client(client),
                recalled: false,
            } => {
                self.state.phase = LayoutPhase::Held {
                    holder: NodeId::Client(client),
                    recalled: true,
                };
                true
            }
            _ => false,
        }
    }

    /// The holder returns it under the user `named`: its mirrors that are reported leave, unless all are, and the fence
    /// to the user `next` begins.
    ///
    /// # Errors
    /// `Unknown` where it is not held, `Other` where another node holds it or under another user. Nothing changes then.
    pub fn take_return(
        &mut self,
        node: NodeId,
        named: Cred,
        reported: Reported,
        next: Cred,
    ) -> Result<EndCause, ReturnFault>
        ensures { Returns self.old node named reported.places next result self.new }
    {
        let LayoutPhase::Held { holder, .. } = self.state.phase else {
            return Err(ReturnFault::Unknown);
        };
        if holder != node || self.state.cred != named {
            return Err(ReturnFault::Other {
                current: self.state.cred,
            });
        }
        Ok(self.end(&reported, EndCause::Returned, next))
    }

    /// Its period ends in another way, and the fence to the user `next` begins.
    pub fn revoke(&mut self, cause: EndCause, next: Cred)
        requires held { is_some (holder_of self.old.phase) ≡ true }
        requires dirty { is_clean cause ≡ false }
        ensures { self.new ≡ after_revocation self.old next }
    {
        self.state.phase = LayoutPhase::Fencing {
            next,
            end: FenceEnd::Dirty,
        };
    }

    /// The metadata server's own write is over: the mirrors at which it failed leave, unless it failed at all of them, and
    /// the fence to the user `next` begins.
    pub fn own_done(&mut self, failed: Reported, next: Cred) -> EndCause
        requires { IsSomeAnd (holder_of self.old.phase) (λ h. is_mds h ≡ true) }
        ensures cause { result ≡ end_cause cause_of.Own (unreported failed.places self.old.live) }
        ensures state { self.new ≡ after_return self.old failed.places next }
    {
        self.end(&failed, EndCause::Own, next)
    }

    /// A live mirror failed: it leaves, unless it is the last one, which stays, with the answer false. Where it was the
    /// source of a copy, the next one is to be settled.
    pub fn mirror_failed(&mut self, id: MirrorId, cause: LeftCause) -> bool
        requires { may_lose (phase_of self.old.phase) ≡ true }
        ensures answer { result ≡ not (is_last_live self.old.live) }
        ensures state { self.new ≡ (if result then after_loss self.old id else self.old) }
    {
        if self.state.live.len() < 2 {
            return false;
        }
        let source = self.state.live.is_first(id);
        if let LayoutPhase::Copying { copies, .. } = self.state.phase
            && source
        {
            self.state.phase = LayoutPhase::Settling { copies };
        }
        self.state.live = self.state.live.but_for(id);
        true
    }

    /// Each mirror of its fence acknowledged or left: it is free, or behind a dirty end its first mirror is to be
    /// settled.
    pub fn fence_done(&mut self)
        requires { phase_of self.old.phase ≡ name.Fencing }
        ensures { self.new ≡ after_fence self.old }
    {
        if let LayoutPhase::Fencing { next, end } = self.state.phase {
            self.state.cred = next;
            self.state.phase = match end {
                FenceEnd::Clean | FenceEnd::Copied => LayoutPhase::Free,
                FenceEnd::Dirty => LayoutPhase::Settling {
                    copies: CopyKind::Replacing,
                },
            };
        }
    }

    /// Ends the period: the mirrors at these places leave, unless all of them would.
    fn end(&mut self, gone: &Reported, cause: EndCause, next: Cred) -> EndCause
        ensures cause { result ≡ end_cause cause (unreported gone.now.places self.old.live) }
        ensures state { self.new ≡ left_with self.old next (unreported gone.now.places self.old.live) }
    {
        let left = self.state.live.unreported(gone);
        if left.len() == 0 {
            self.state.phase = LayoutPhase::Fencing {
                next,
                end: FenceEnd::Dirty,
            };
            return EndCause::AllReported;
        }
        self.state.live = left;
        self.state.phase = LayoutPhase::Fencing {
            next,
            end: FenceEnd::Clean,
        };
        cause
    }
}
