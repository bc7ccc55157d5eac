//! What a writer tells of what is outstanding, of its taken writes, and of its mirrors together.

ghost use Rattle.cluster_model.specs.declared.limits.TheConstants.{PIECE_SIZE};
ghost use Rattle.std.specs.Prelude.{◌≡◌, ◌≤◌, IfSome, length, option_map, slice_get};
ghost use Rattle.mirror_writer.specs.Calls.{LendsTaken, CarriesFewBytes};
ghost use Rattle.mirror_writer.specs.Outstanding.{out_at, out_call, out_shown, is_covered_everywhere, has_no_mirror};

use crate::call::WriterCall;
use crate::mirrors::{all_cover, all_failed, first_on};
use crate::write_bytes::WriteBytes;
use crate::writer::Writer;
use cluster_model::{DsCall, MirrorId};

impl Writer {
    /// The call that is outstanding at the mirror on this data server, and its number.
    pub fn call_to(&self, server: u32) -> Option<(u32, DsCall<'_>)>
        ensures few { CarriesFewBytes result }
        ensures call { out_shown result ≡ out_at self.now server }
    {
        let Some((id, call)) = first_on(server, &self.mirrors) else {
            return None;
        };
        self.lend_out(id, call)
    }

    /// This call of the mirror of this name, and its number.
    fn lend_out(&self, id: MirrorId, call: WriterCall) -> Option<(u32, DsCall<'_>)>
        ensures few { CarriesFewBytes result }
        ensures call { out_shown result ≡ out_call self.now id call }
    {
        let fileid = id.fileid;
        match call {
            WriterCall::NoCall => None,
            WriterCall::OutWrite { xid, write, .. } => {
                let (at, bytes) = self.write_numbered(write)?;
                let call = DsCall::Write {
                    fileid,
                    at,
                    synced: false,
                    bytes: bytes.bytes(),
                };
                Some((xid, call))
            }
            WriterCall::OutCommit { xid, .. } => Some((xid, DsCall::Commit { fileid })),
        }
    }

    /// Each mirror of the layout has covered the taken write of this number, from 0.
    pub fn covered_everywhere(&self, n: usize) -> bool
        ensures { result ≡ is_covered_everywhere self.now n }
    {
        all_cover(n, &self.mirrors)
    }

    /// Every mirror has failed.
    pub fn has_no_mirror(&self) -> bool
        ensures { result ≡ has_no_mirror self.now }
    {
        all_failed(&self.mirrors)
    }

    /// The taken write of this number, from 0: its place and its bytes.
    pub fn write_numbered(&self, n: usize) -> Option<(u64, &WriteBytes)>
        ensures few { IfSome result (λ w. length w.1.now ≤ PIECE_SIZE) }
        ensures lent { LendsTaken (slice_get self.now.taken n) (option_map (λ w. (w.0, w.1.now)) result) }
    {
        let write = self.taken.get(n)?;
        // read, so that the proof knows how many there are
        let _bytes = write.bytes.bytes();
        Some((write.at, &write.bytes))
    }

    /// How many writes were taken.
    pub fn count(&self) -> usize
        ensures { result ≡ length self.now.taken }
    {
        self.taken.len()
    }
}
