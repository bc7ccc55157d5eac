//! Appending to a log.

ghost use Rattle.std.specs.Prelude.{◌≡◌, ◌+◌, ◌-◌, ◌<◌, ◌^◌, ℕ, List, IfOk, length};
ghost use Rattle.rpc_record.specs.Stream.{counted};
ghost use Rattle.gate_log.specs.Appends.{Appends, HoldsLog, LeavesAsReady, MakesReady};

use crate::gated::Gated;
use crate::staging::{seal, stage};
use rpc_record::Failed;
use store_disk::Disk;

/// Makes a disk ready for a log: syncs it, and gives one of at most one byte a closed gate. Returns how many bytes it has
/// then.
pub fn make_ready<D: Disk>(disk: &mut D) -> Result<u64, Failed>
    ensures ready { MakesReady (D.told disk.old) result (D.told disk.new) }
    ensures crash { LeavesAsReady (D.told disk.old) (D.told disk.new) }
    ensures faults { D.faults disk.new ≡ counted result (D.faults disk.old) }
{
    disk.sync()?;
    let size = disk.length()?;
    if size > 1 {
        return Ok(size);
    }
    disk.write_at(0, &[0])?;
    disk.sync()?;
    Ok(1)
}

/// Appends a record to a log whose last gate byte stands at the byte `end`, in four calls: the record is written behind
/// that gate (`stage`); synced; the gate is opened; synced (`seal`). So a crash leaves the record whole, or not at all.
/// Returns where the last gate byte stands then. It takes no memory.
///
/// Behind an error the record may be there or not, and nothing more may be appended until the log was read anew.
pub fn append<D: Disk>(disk: &mut D, end: u64, body: &Gated) -> Result<u64, Failed>
    requires { end < 2 ^ 64 - 1 }
    ensures appends { (bodies : List (List ℕ)) → HoldsLog (D.told disk.old) bodies end → Appends (D.told disk.old) bodies body.now result (D.told disk.new) }
    ensures end { IfOk result (λ next. (next ≡ end + 5 + length body.now) × (next < 2 ^ 64 - 1)) }
    ensures faults { D.faults disk.new ≡ counted result (D.faults disk.old) }
{
    let next = stage(disk, end, end, body)?;
    seal(disk, end, next)?;
    Ok(next)
}
