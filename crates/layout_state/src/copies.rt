//! A file while a copy of it is made.

ghost use Rattle.std.specs.Prelude.{◌≡◌, true, length, nat_lt};
ghost use Rattle.std.specs.Bool.{OnTrue};
ghost use Rattle.cluster_model.specs.declared.phase.Phase.TheVariants as name;
ghost use Rattle.cluster_model.specs.Phases.{phase_of, has_targets, can_swap_all, with_targets};
ghost use Rattle.layout_state.specs.Copies.{Settles, SwapsIn, AddsMirrors};

use crate::file_state::FileState;
use crate::grant::AddMirrorFault;
use cluster_model::{
    CopyKind, Cred, FenceEnd, LayoutPhase, Mirrors, SPARE_UIDS, SwappedIn, Targets,
};

impl FileState {
    /// Its first mirror is committed: where there is something to copy, a copy under the user `next` begins; else it is
    /// free, and `next` is not used.
    pub fn settled(&mut self, next: Cred)
        requires { phase_of self.old.phase ≡ name.Settling }
        ensures { Settles self.old self.old.phase next self.new }
    {
        if let LayoutPhase::Settling { copies } = self.state.phase {
            self.state.phase = if self.has_targets(copies) {
                LayoutPhase::Copying {
                    copier: next,
                    copies,
                }
            } else {
                LayoutPhase::Free
            };
        }
    }

    /// There is something to copy: a mirror to replace, or one that is missing.
    fn has_targets(&self, copies: CopyKind) -> bool
        ensures { result ≡ has_targets copies (length self.now.live) self.now.wanted }
    {
        match copies {
            CopyKind::Replacing => self.state.live.len() > 1,
            CopyKind::Adding => self.state.live.len() < self.state.wanted as usize,
        }
    }

    /// Each of these mirrors can come into the live list, one after the other.
    pub fn can_swap(&self, targets: &Targets) -> bool
        ensures { result ≡ can_swap_all targets.now self.now.live }
    {
        let mut live = self.state.live;
        swap_all(targets.as_slice(), &mut live)
    }

    /// These mirrors hold the bytes and come into the live list, and the fence from the copy's user to `next` begins.
    /// Where there are none it is free, and `next` is not used.
    pub fn copied(&mut self, targets: &Targets, next: Cred)
        requires copying { phase_of self.old.phase ≡ name.Copying }
        requires fits { can_swap_all targets.now self.old.live ≡ true }
        ensures { SwapsIn self.old self.old.phase targets.now next self.new }
    {
        let LayoutPhase::Copying { copier, .. } = self.state.phase else {
            return;
        };
        if targets.as_slice().is_empty() {
            self.state.phase = LayoutPhase::Free;
            return;
        }
        swap_all(targets.as_slice(), &mut self.state.live);
        self.state.cred = copier;
        self.state.phase = LayoutPhase::Fencing {
            next,
            end: FenceEnd::Copied,
        };
    }

    /// Resilvering begins: mirrors are to be added until as many are live as are wanted, where so many users are left to
    /// be drawn.
    ///
    /// # Errors
    /// `Later` where it is not free, `Whole` where as many are live as are wanted, `Spent` where fewer than 65,536 users
    /// are left. Nothing changes then.
    pub fn add_mirrors(&mut self, uids_left: u32) -> Result<(), AddMirrorFault>
        ensures { AddsMirrors self.old uids_left result self.new }
    {
        let LayoutPhase::Free = self.state.phase else {
            return Err(AddMirrorFault::Later(self.phase()));
        };
        if !self.has_targets(CopyKind::Adding) {
            return Err(AddMirrorFault::Whole);
        }
        if uids_left < SPARE_UIDS {
            return Err(AddMirrorFault::Spent);
        }
        self.state.phase = LayoutPhase::Settling {
            copies: CopyKind::Adding,
        };
        Ok(())
    }
}

/// Each of these mirrors comes into the live list, one after the other; false at the first that cannot.
fn swap_all(targets: &[SwappedIn], live: &mut Mirrors) -> bool
    ensures told { result ≡ can_swap_all targets.now live.old }
    ensures swapped { OnTrue result (live.new ≡ with_targets targets.now live.old) }
{
    for target in targets {
        if !live.swap(*target) {
            return false;
        }
    }
    true
}
