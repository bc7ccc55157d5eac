//! What holds of a data file, whatever is done to it. Each law speaks of the definitions that the data
//! server's rule and the journal's reading cite.

ghost use Rattle.std.specs.Prelude.{◌≡◌, ℕ, Bool, List};
ghost use Rattle.cluster_model.specs.declared.tick.Tick.{Tick};
ghost use Rattle.cluster_model.specs.declared.change.Changes.{Changes};
ghost use Rattle.cluster_model.specs.Content.{overlay};
ghost use Rattle.cluster_model.specs.File.{StoredFile, FileOp, shown, written};
ghost use Rattle.cluster_model.specs.Laws.{IsClocked, KeepsTimes, PassesGuards, IsCommitted, IsWritten, AreDisjoint, Commute, StandsAt};

/// The ctime that a restart leaves never falls, and never passes the one that is shown, which never
/// passes the last tick.
pub fn stable_times()
    ensures { (f : StoredFile) (clock : Tick) (op : FileOp) → IsClocked f clock → KeepsTimes f clock op }
{}

/// A SETATTR leaves a stable ctime above its guard, and above every tick that was given before.
pub fn guards()
    ensures { (f : StoredFile) (clock : Tick) (changes : Changes) → PassesGuards f clock changes }
{}

/// A COMMIT leaves what is shown stable, and nothing pending.
pub fn commits()
    ensures { (f : StoredFile) → IsCommitted f }
{}

/// A WRITE changes the shown bytes inside its range alone, be it synced or not.
pub fn writes()
    ensures { (f : StoredFile) (tick : Tick) (at : ℕ) (synced : Bool) (bytes : List ℕ) → IsWritten (shown f) at bytes (shown (written f tick at synced bytes)) }
{}

/// Writes that have no byte in common may come in either order, and a write whose bytes stand there
/// already changes nothing.
pub fn overlays()
    ensures order { (old : List ℕ) (a : ℕ) (xs : List ℕ) (b : ℕ) (ys : List ℕ) → AreDisjoint a xs b ys → Commute old a xs b ys }
    ensures again { (old : List ℕ) (at : ℕ) (bytes : List ℕ) → StandsAt old at bytes → overlay old at bytes ≡ old }
{}
