//! LAYOUTCOMMIT: commit what was written through a layout (RFC 8881, section 18.42).

ghost use Rattle.std.specs.Prelude.{refl};
ghost use Rattle.nfs4_file_ops.specs.LayoutCommit.{layoutcommit4_args, layoutcommit4_args_value};

use ff_xdr::{Cursor, Message, NoMemory, Out, Wire, XdrError};
use nfs4_types::{OpResult, OpaqueBody, Stateid, Time4};

/// The arguments, `LAYOUTCOMMIT4args`.
#[derive(Clone, Copy, Debug, PartialEq, Eq)]
pub struct LayoutCommitArgs<'a> {
    /// From which byte on.
    pub offset: u64,
    /// For how many bytes.
    pub length: u64,
    pub reclaim: bool,
    /// Of the layout.
    pub stateid: Stateid,
    /// The last byte that was written, where one was.
    pub last_write_offset: Option<u64>,
    pub time_modify: Option<Time4>,
    /// 4 for flexible files (RFC 8435).
    pub layout_type: u32,
    /// In a form of the layout type's own.
    pub body: OpaqueBody<'a>,
}

impl<'a> Message for LayoutCommitArgs<'a> {
    ghost form = { layoutcommit4_args };

    ghost meaning = { layoutcommit4_args_value };

    ghost sound = { refl };
}

impl<'a> Wire<'a> for LayoutCommitArgs<'a> {
    fn read(cursor: &mut Cursor<'a>) -> Result<LayoutCommitArgs<'a>, XdrError> {
        let (
            offset,
            length,
            (reclaim, stateid, (last_write_offset, time_modify, (layout_type, body))),
        ) = Wire::read(cursor)?;
        Ok(LayoutCommitArgs {
            offset,
            length,
            reclaim,
            stateid,
            last_write_offset,
            time_modify,
            layout_type,
            body,
        })
    }

    fn put(&self, out: &mut Out) -> Result<(), NoMemory> {
        (
            self.offset,
            self.length,
            (
                self.reclaim,
                self.stateid,
                (
                    self.last_write_offset,
                    self.time_modify,
                    (self.layout_type, self.body),
                ),
            ),
        )
            .put(out)
    }

    fn fits(&self) -> bool {
        (
            self.offset,
            self.length,
            (
                self.reclaim,
                self.stateid,
                (
                    self.last_write_offset,
                    self.time_modify,
                    (self.layout_type, self.body),
                ),
            ),
        )
            .fits()
    }
}

/// The result, `LAYOUTCOMMIT4res`: the file's size, where it changed.
pub type LayoutCommitRes = OpResult<Option<u64>>;
