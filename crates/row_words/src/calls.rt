//! Calls to data servers and their replies, phases and causes.

use crate::answer::Answer;
use crate::words::Words;
use cluster_model::{Cred, DsCall, DsReply, EndCause, LeftCause, Phase};

impl Words<'_> {
    /// A user.
    pub fn cred(&mut self) -> Cred {
        Cred(self.number32())
    }

    /// Why a period ended.
    pub fn end_cause(&mut self) -> EndCause {
        match self.word() {
            "returned" => EndCause::Returned,
            "own" => EndCause::Own,
            "allreported" => EndCause::AllReported,
            "recalled" => EndCause::Recalled,
            "lease" => EndCause::Lease,
            "nolayout" => EndCause::NoLayout,
            "clientgone" => EndCause::ClientGone,
            "returnedall" => EndCause::ReturnedAll,
            _ => self.outside(EndCause::Own),
        }
    }

    /// Why a mirror left.
    pub fn left_cause(&mut self) -> LeftCause {
        match self.word() {
            "reported" => LeftCause::Reported,
            "error" => LeftCause::Error(self.number32()),
            "timeouts" => LeftCause::Timeouts,
            "unsynced" => LeftCause::Unsynced,
            _ => self.outside(LeftCause::Reported),
        }
    }

    /// The phase of a file.
    pub fn phase(&mut self) -> Phase {
        match self.word() {
            "making" => Phase::Making,
            "free" => Phase::Free,
            "held" => Phase::Held,
            "fencing" => Phase::Fencing,
            "settling" => Phase::Settling,
            "copying" => Phase::Copying,
            _ => self.outside(Phase::Making),
        }
    }

    /// A WRITE to a data server.
    fn ds_write<'b>(&mut self, buffer: &'b mut Vec<u8>) -> DsCall<'b> {
        let fileid = self.number64();
        let at = self.number64();
        let synced = self.flag();
        *buffer = self.bytes();
        DsCall::Write {
            fileid,
            at,
            synced,
            bytes: buffer.as_slice(),
        }
    }

    /// A call to a data server. Its bytes are put into the buffer.
    pub fn ds_call<'b>(&mut self, buffer: &'b mut Vec<u8>) -> DsCall<'b> {
        match self.word() {
            "create" => DsCall::Create {
                name: self.number64(),
                owner: self.cred(),
            },
            "setattr" => DsCall::SetAttr {
                fileid: self.number64(),
                owner: self.cred(),
                guard: self.tick(),
            },
            "write" => self.ds_write(buffer),
            "commit" => DsCall::Commit {
                fileid: self.number64(),
            },
            "read" => DsCall::Read {
                fileid: self.number64(),
                at: self.number64(),
                count: self.number32(),
            },
            _ => self.outside(DsCall::Commit { fileid: 0 }),
        }
    }

    /// The bytes that a data server answers a READ by.
    fn ds_bytes<'b>(&mut self, buffer: &'b mut Vec<u8>) -> DsReply<'b> {
        let shown = self.shown();
        let eof = self.flag();
        *buffer = self.bytes();
        DsReply::Bytes {
            shown,
            eof,
            bytes: buffer.as_slice(),
        }
    }

    /// The answer of a data server to a call. Its bytes are put into the buffer.
    pub fn ds_reply<'b>(&mut self, buffer: &'b mut Vec<u8>) -> DsReply<'b> {
        match self.word() {
            "created" => DsReply::Created {
                fileid: self.number64(),
                shown: self.shown_file(),
            },
            "set" => DsReply::Set {
                shown: self.shown(),
            },
            "written" => DsReply::Written {
                shown: self.shown(),
                verifier: self.number64(),
            },
            "committed" => DsReply::Committed {
                shown: self.shown(),
                verifier: self.number64(),
            },
            "bytes" => self.ds_bytes(buffer),
            "notsync" => DsReply::NotSync {
                shown: self.shown_file(),
            },
            "failed" => DsReply::Failed {
                status: self.number32(),
                shown: self.shown(),
            },
            _ => self.outside(DsReply::Set { shown: None }),
        }
    }
}

impl Answer {
    /// A user.
    pub fn cred(&mut self, cred: Cred) {
        self.number32(cred.0);
    }

    /// Why a period ended.
    pub fn end_cause(&mut self, cause: EndCause) {
        match cause {
            EndCause::Returned => self.word("returned"),
            EndCause::Own => self.word("own"),
            EndCause::AllReported => self.word("allreported"),
            EndCause::Recalled => self.word("recalled"),
            EndCause::Lease => self.word("lease"),
            EndCause::NoLayout => self.word("nolayout"),
            EndCause::ClientGone => self.word("clientgone"),
            EndCause::ReturnedAll => self.word("returnedall"),
        }
    }

    /// Why a mirror left.
    pub fn left_cause(&mut self, cause: LeftCause) {
        match cause {
            LeftCause::Reported => self.word("reported"),
            LeftCause::Error(status) => {
                self.word("error");
                self.number32(status);
            }
            LeftCause::Timeouts => self.word("timeouts"),
            LeftCause::Unsynced => self.word("unsynced"),
        }
    }

    /// The phase of a file.
    pub fn phase(&mut self, phase: Phase) {
        match phase {
            Phase::Making => self.word("making"),
            Phase::Free => self.word("free"),
            Phase::Held => self.word("held"),
            Phase::Fencing => self.word("fencing"),
            Phase::Settling => self.word("settling"),
            Phase::Copying => self.word("copying"),
        }
    }

    /// A call to a data server.
    pub fn ds_call(&mut self, call: &DsCall<'_>) {
        match *call {
            DsCall::Create { name, owner } => {
                self.word("create");
                self.number(name);
                self.cred(owner);
            }
            DsCall::SetAttr {
                fileid,
                owner,
                guard,
            } => {
                self.word("setattr");
                self.number(fileid);
                self.cred(owner);
                self.tick(guard);
            }
            DsCall::Write {
                fileid,
                at,
                synced,
                bytes,
            } => {
                self.word("write");
                self.number(fileid);
                self.number(at);
                self.flag(synced);
                self.bytes(bytes);
            }
            DsCall::Commit { fileid } => {
                self.word("commit");
                self.number(fileid);
            }
            DsCall::Read { fileid, at, count } => {
                self.word("read");
                self.number(fileid);
                self.number(at);
                self.number32(count);
            }
        }
    }

    /// The answer of a data server to a call.
    pub fn ds_reply(&mut self, reply: &DsReply<'_>) {
        match *reply {
            DsReply::Created { fileid, shown } => {
                self.word("created");
                self.number(fileid);
                self.shown_file(shown);
            }
            DsReply::Set { shown } => {
                self.word("set");
                self.shown(shown);
            }
            DsReply::Written { shown, verifier } => {
                self.word("written");
                self.shown(shown);
                self.number(verifier);
            }
            DsReply::Committed { shown, verifier } => {
                self.word("committed");
                self.shown(shown);
                self.number(verifier);
            }
            DsReply::Bytes { shown, eof, bytes } => {
                self.word("bytes");
                self.shown(shown);
                self.flag(eof);
                self.bytes(bytes);
            }
            DsReply::NotSync { shown } => {
                self.word("notsync");
                self.shown_file(shown);
            }
            DsReply::Failed { status, shown } => {
                self.word("failed");
                self.number32(status);
                self.shown(shown);
            }
        }
    }
}
