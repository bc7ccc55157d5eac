//! What a step put out.

ghost use Rattle.std.specs.Prelude.{◌≡◌, ◌++◌, OnOk, OnErr};

use cluster_model::Outbox;
use ff_xdr::NoMemory;

/// Puts all that was put out behind what there is. Takes memory; where it is wanted nothing has changed.
pub fn hand_all(mut own: Outbox, out: &mut Outbox) -> Result<(), NoMemory>
    ensures entries { OnOk result (out.new.entries.items ≡ out.old.entries.items ++ own.entries.items) }
    ensures sends { OnOk result (out.new.sends.items ≡ out.old.sends.items ++ own.sends.items) }
    ensures no_entries { OnErr result (out.new.entries.items ≡ out.old.entries.items) }
    ensures no_sends { OnErr result (out.new.sends.items ≡ out.old.sends.items) }
{
    out.entries.reserve(own.entries.len())?;
    out.sends.append(&mut own.sends)?;
    out.entries.append(&mut own.entries)?;
    Ok(())
}
