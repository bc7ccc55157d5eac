//! A result without a READ's bytes.

ghost use Rattle.std.specs.Prelude.{◌≡◌};
ghost use Rattle.nfs3_wire.specs.Replies.{plain_reply};
ghost use Rattle.ds_procedures.specs.Answer.{reply_with};

use nfs3_wire::{
    CommitReply, CreateOk, CreateReply, Fattr3, FsInfoReply, GetAttrReply, LookupOk, LookupReply,
    ReadOk, ReadReply, Reply3, SetAttrReply, Stat3, WccData, WriteReply,
};

/// A result as `Reply3` is, with handles of its own. The data of a READ stand beside it.
#[derive(Clone, Copy, Debug)]
pub enum StoredReply {
    Null,
    GetAttr(GetAttrReply),
    SetAttr(SetAttrReply),
    LookupDone {
        file: [u8; 8],
        attributes: Option<Fattr3>,
        directory: Option<Fattr3>,
    },
    LookupRefused {
        status: Stat3,
        directory: Option<Fattr3>,
    },
    ReadDone {
        attributes: Option<Fattr3>,
        count: u32,
        eof: bool,
    },
    ReadRefused {
        status: Stat3,
        attributes: Option<Fattr3>,
    },
    Write(WriteReply),
    CreateDone {
        file: [u8; 8],
        attributes: Option<Fattr3>,
        wcc: WccData,
    },
    CreateRefused {
        status: Stat3,
        wcc: WccData,
    },
    FsInfo(FsInfoReply),
    Commit(CommitReply),
}

/// The result, whose READ gave these bytes; takes no memory.
pub fn lend<'r>(stored: &'r StoredReply, bytes: &'r [u8]) -> Reply3<'r>
    ensures { plain_reply result ≡ reply_with stored.now bytes.now }
{
    match stored {
        StoredReply::Null => Reply3::Null,
        StoredReply::GetAttr(reply) => Reply3::GetAttr(*reply),
        StoredReply::SetAttr(reply) => Reply3::SetAttr(*reply),
        StoredReply::LookupDone {
            file,
            attributes,
            directory,
        } => Reply3::Lookup(LookupReply::Done(LookupOk {
            file: file.as_slice(),
            attributes: *attributes,
            directory: *directory,
        })),
        StoredReply::LookupRefused { status, directory } => {
            Reply3::Lookup(LookupReply::Refused(*status, *directory))
        }
        StoredReply::ReadDone {
            attributes,
            count,
            eof,
        } => Reply3::Read(ReadReply::Done(ReadOk {
            attributes: *attributes,
            count: *count,
            eof: *eof,
            bytes,
        })),
        StoredReply::ReadRefused { status, attributes } => {
            Reply3::Read(ReadReply::Refused(*status, *attributes))
        }
        StoredReply::Write(reply) => Reply3::Write(*reply),
        StoredReply::CreateDone {
            file,
            attributes,
            wcc,
        } => Reply3::Create(CreateReply::Done(CreateOk {
            file: Some(file.as_slice()),
            attributes: *attributes,
            wcc: *wcc,
        })),
        StoredReply::CreateRefused { status, wcc } => {
            Reply3::Create(CreateReply::Refused(*status, *wcc))
        }
        StoredReply::FsInfo(reply) => Reply3::FsInfo(*reply),
        StoredReply::Commit(reply) => Reply3::Commit(*reply),
    }
}
