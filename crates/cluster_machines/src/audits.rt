//! What stands in the live mirrors of a file.

ghost use Rattle.std.specs.Prelude.{◌≡◌, ◌++◌, IfOk, OnOk, map, option_copied};
ghost use Rattle.cluster_model.specs.declared.ids.Mirror.{Mirror};
ghost use Rattle.world_rule.specs.Machines.{audit_of, audits, nth, shown_by, shown_or_none, HasActed};

use crate::machines::Machines;
use cluster_model::{Entry, FileId, MirrorId, Mirrors, Outbox};
use data_file::DataFile;
use ff_xdr::{Data, NoMemory};

/// How many bytes of a mirror are shown.
const SHOWN: u32 = 64;

impl Machines {
    /// Of each live mirror of a file how many bytes it shows, and the first 64 of them; nothing where there is no such file.
    pub fn audit(&self, file: FileId, out: &mut Outbox) -> Result<(), NoMemory>
        ensures { OnOk result (HasActed (audits file self.now) out.old self.now out.new) }
    {
        let Some(live) = self.mds.live(file) else {
            return Ok(());
        };
        self.audit_each(file, live, out)
    }

    /// The same of these mirrors.
    fn audit_each(&self, file: FileId, live: Mirrors, out: &mut Outbox) -> Result<(), NoMemory>
        ensures entries { OnOk result (out.new.entries.items ≡ out.old.entries.items ++ map (λ (mirror : Mirror). audit_of self.now file mirror.id) live) }
        ensures sends { OnOk result (out.new.sends.items ≡ out.old.sends.items) }
    {
        for place in 0..live.len() {
            let Some(mirror) = live.get(place) else {
                return Ok(());
            };
            out.entries.push(self.audit_of(file, mirror.id)?)?;
        }
        Ok(())
    }

    /// What a mirror shows; no bytes where it has no file.
    fn audit_of(&self, file: FileId, mirror: MirrorId) -> Result<Entry, NoMemory>
        ensures { IfOk result (λ entry. entry ≡ audit_of self.now file mirror) }
    {
        let Some(stored) = self.stored(mirror) else {
            return Ok(Entry::Audit {
                file,
                mirror,
                length: 0,
                bytes: Data::of(self.alloc, b"")?,
            });
        };
        Ok(Entry::Audit {
            file,
            mirror,
            length: stored.size(),
            bytes: stored.read(0, SHOWN).to_data(self.alloc)?,
        })
    }

    /// The data file of a mirror, where there is one.
    fn stored(&self, mirror: MirrorId) -> Option<&DataFile>
        ensures { shown_or_none (option_copied result) ≡ shown_by (nth self.now.servers mirror.server) mirror.fileid }
    {
        self.server(mirror.server)?.file(mirror.fileid)
    }
}
