//! The status of an operation and of a compound.

ghost use Rattle.std.specs.Prelude.{◌≡◌, refl};
ghost use Rattle.nfs4_types.specs.Status.{nfsstat4, refusal4, stat4_number, IsStat4};

use ff_xdr::{Cursor, Message, NoMemory, Out, Wire, XdrError};

/// The status of an operation and of a compound (RFC 8881, section 15.1, `nfsstat4`).
#[derive(Clone, Copy, Debug, PartialEq, Eq)]
pub enum Stat4 {
    Ok,
    Perm,
    NoEnt,
    Io,
    Access,
    Exist,
    NotDir,
    IsDir,
    Inval,
    Fbig,
    NoSpc,
    Rofs,
    NameTooLong,
    Stale,
    BadHandle,
    BadCookie,
    NotSupp,
    TooSmall,
    ServerFault,
    Delay,
    NoFileHandle,
    MinorVersMismatch,
    StaleClientId,
    OldStateid,
    BadStateid,
    NotSame,
    AttrNotSupp,
    NoGrace,
    BadXdr,
    LocksHeld,
    BadOwner,
    OpIllegal,
    BadIoMode,
    BadSession,
    BadSlot,
    CompleteAlready,
    LayoutTryLater,
    LayoutUnavailable,
    NoMatchingLayout,
    RecallConflict,
    UnknownLayoutType,
    SeqMisordered,
    SequencePos,
    RepTooBigToCache,
    RetryUncachedRep,
    TooManyOps,
    OpNotInSession,
    ClientIdBusy,
    NotOnlyOp,
    WrongType,
}

impl Stat4 {
    /// The number of the status.
    pub fn number(self) -> u32
        ensures { result ≡ stat4_number self }
    {
        match self {
            Stat4::Ok => 0,
            Stat4::Perm => 1,
            Stat4::NoEnt => 2,
            Stat4::Io => 5,
            Stat4::Access => 13,
            Stat4::Exist => 17,
            Stat4::NotDir => 20,
            Stat4::IsDir => 21,
            Stat4::Inval => 22,
            Stat4::Fbig => 27,
            Stat4::NoSpc => 28,
            Stat4::Rofs => 30,
            Stat4::NameTooLong => 63,
            Stat4::Stale => 70,
            Stat4::BadHandle => 10001,
            Stat4::BadCookie => 10003,
            Stat4::NotSupp => 10004,
            Stat4::TooSmall => 10005,
            Stat4::ServerFault => 10006,
            Stat4::Delay => 10008,
            Stat4::NoFileHandle => 10020,
            Stat4::MinorVersMismatch => 10021,
            Stat4::StaleClientId => 10022,
            Stat4::OldStateid => 10024,
            Stat4::BadStateid => 10025,
            Stat4::NotSame => 10027,
            Stat4::AttrNotSupp => 10032,
            Stat4::NoGrace => 10033,
            Stat4::BadXdr => 10036,
            Stat4::LocksHeld => 10037,
            Stat4::BadOwner => 10039,
            Stat4::OpIllegal => 10044,
            Stat4::BadIoMode => 10049,
            Stat4::BadSession => 10052,
            Stat4::BadSlot => 10053,
            Stat4::CompleteAlready => 10054,
            Stat4::LayoutTryLater => 10058,
            Stat4::LayoutUnavailable => 10059,
            Stat4::NoMatchingLayout => 10060,
            Stat4::RecallConflict => 10061,
            Stat4::UnknownLayoutType => 10062,
            Stat4::SeqMisordered => 10063,
            Stat4::SequencePos => 10064,
            Stat4::RepTooBigToCache => 10067,
            Stat4::RetryUncachedRep => 10068,
            Stat4::TooManyOps => 10070,
            Stat4::OpNotInSession => 10071,
            Stat4::ClientIdBusy => 10074,
            Stat4::NotOnlyOp => 10081,
            Stat4::WrongType => 10083,
        }
    }

    /// The status with this number, where there is one.
    pub fn of_number(number: u32) -> Option<Stat4>
        ensures { IsStat4 number result }
    {
        Some(match number {
            0 => Stat4::Ok,
            1 => Stat4::Perm,
            2 => Stat4::NoEnt,
            5 => Stat4::Io,
            13 => Stat4::Access,
            17 => Stat4::Exist,
            20 => Stat4::NotDir,
            21 => Stat4::IsDir,
            22 => Stat4::Inval,
            27 => Stat4::Fbig,
            28 => Stat4::NoSpc,
            30 => Stat4::Rofs,
            63 => Stat4::NameTooLong,
            70 => Stat4::Stale,
            10001 => Stat4::BadHandle,
            10003 => Stat4::BadCookie,
            10004 => Stat4::NotSupp,
            10005 => Stat4::TooSmall,
            10006 => Stat4::ServerFault,
            10008 => Stat4::Delay,
            10020 => Stat4::NoFileHandle,
            10021 => Stat4::MinorVersMismatch,
            10022 => Stat4::StaleClientId,
            10024 => Stat4::OldStateid,
            10025 => Stat4::BadStateid,
            10027 => Stat4::NotSame,
            10032 => Stat4::AttrNotSupp,
            10033 => Stat4::NoGrace,
            10036 => Stat4::BadXdr,
            10037 => Stat4::LocksHeld,
            10039 => Stat4::BadOwner,
            10044 => Stat4::OpIllegal,
            10049 => Stat4::BadIoMode,
            10052 => Stat4::BadSession,
            10053 => Stat4::BadSlot,
            10054 => Stat4::CompleteAlready,
            10058 => Stat4::LayoutTryLater,
            10059 => Stat4::LayoutUnavailable,
            10060 => Stat4::NoMatchingLayout,
            10061 => Stat4::RecallConflict,
            10062 => Stat4::UnknownLayoutType,
            10063 => Stat4::SeqMisordered,
            10064 => Stat4::SequencePos,
            10067 => Stat4::RepTooBigToCache,
            10068 => Stat4::RetryUncachedRep,
            10070 => Stat4::TooManyOps,
            10071 => Stat4::OpNotInSession,
            10074 => Stat4::ClientIdBusy,
            10081 => Stat4::NotOnlyOp,
            10083 => Stat4::WrongType,
            _ => return None,
        })
    }
}

impl Message for Stat4 {
    ghost form = { nfsstat4 };

    ghost meaning = { stat4_number };

    ghost sound = { refl };
}

impl<'a> Wire<'a> for Stat4 {
    fn read(cursor: &mut Cursor<'a>) -> Result<Stat4, XdrError> {
        let mut fork = cursor.fork();
        match Stat4::of_number(fork.number32()?) {
            None => Err(XdrError::not_enum(cursor.place())),
            Some(status) => {
                *cursor = fork;
                Ok(status)
            }
        }
    }

    fn put(&self, out: &mut Out) -> Result<(), NoMemory> {
        out.number32(self.number())?;
        Ok(())
    }

    fn fits(&self) -> bool {
        // the variant is looked at, so that the check knows that its number is one of the form's
        let _status = *self;
        true
    }
}

/// The status of an operation that was not done: any but OK, which does not fit its form.
#[derive(Clone, Copy, Debug, PartialEq, Eq)]
pub struct Refusal4 {
    pub status: Stat4,
}

impl Message for Refusal4 {
    ghost form = { refusal4 };

    ghost meaning = { λ refusal. stat4_number refusal.status };

    ghost sound = { refl };
}

impl<'a> Wire<'a> for Refusal4 {
    fn read(cursor: &mut Cursor<'a>) -> Result<Refusal4, XdrError> {
        let mut fork = cursor.fork();
        let status = Stat4::read(&mut fork)?;
        if status == Stat4::Ok {
            return Err(XdrError::not_enum(cursor.place()));
        }
        *cursor = fork;
        Ok(Refusal4 { status })
    }

    fn put(&self, out: &mut Out) -> Result<(), NoMemory> {
        self.status.put(out)
    }

    fn fits(&self) -> bool {
        self.status != Stat4::Ok
    }
}
