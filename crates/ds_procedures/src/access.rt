//! Who may do what with a file (RFC 1813, sections 3.3.6 and 3.3.7), and the refusals that all changes share.

ghost use Rattle.std.specs.Prelude.{◌≡◌, IfSome};
ghost use Rattle.std.specs.Option.{option_map};
ghost use Rattle.cluster_model.specs.Server.{allows, is_member, may_read, may_write, tick_refusal};
ghost use Rattle.ds_procedures.specs.Objects.{caller, stat_of};
ghost use Rattle.ds_procedures.specs.ServerBases.{Refuses};

use cluster_model::{MAX_TICKS, Tick};
use data_file::DataFile;
use nfs3_wire::Stat3;
use rpc_record::AuthSys;

/// The owner may read (`mode`, RFC 1813, section 2.5).
const OWNER_READS: u32 = 0o400;

/// The owner may write.
const OWNER_WRITES: u32 = 0o200;

/// Members of the group may read.
const GROUP_READS: u32 = 0o040;

/// The mode has this bit.
fn allows(mode: u32, bit: u32) -> bool
    ensures { result ≡ allows mode bit }
{
    mode & bit != 0
}

/// The caller is a member of the group.
fn is_member(cred: &AuthSys<'_>, group: u32) -> bool
    ensures { result ≡ is_member (caller cred.now) group }
{
    if cred.gid == group {
        return true;
    }
    for gid in cred.gids.items() {
        if gid == group {
            return true;
        }
    }
    false
}

/// The caller may read the file: uid 0, the owner where the mode lets him, and members of the group
/// where it lets them.
pub fn may_read(file: &DataFile, cred: &AuthSys<'_>) -> bool
    ensures { result ≡ may_read file.now (caller cred.now) }
{
    let mode = file.mode();
    cred.uid == 0
        || (cred.uid == file.owner() && allows(mode, OWNER_READS))
        || (is_member(cred, file.group()) && allows(mode, GROUP_READS))
}

/// The caller may write the file: uid 0, and the owner where the mode lets him.
pub fn may_write(file: &DataFile, cred: &AuthSys<'_>) -> bool
    ensures { result ≡ may_write file.now (caller cred.now) }
{
    cred.uid == 0 || (cred.uid == file.owner() && allows(file.mode(), OWNER_WRITES))
}

/// No tick is left for a change.
pub fn tick_refusal(clock: Tick) -> Option<Stat3>
    ensures exact { result ≡ option_map stat_of (tick_refusal clock) }
    ensures status { IfSome result Refuses }
{
    (clock.count == MAX_TICKS).then_some(Stat3::Jukebox)
}
