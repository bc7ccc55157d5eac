//! What a user asks of a client.

ghost use Rattle.std.specs.Prelude.{◌≡◌, ◌≤◌, length, IfOk};

use ff_xdr::NoMemory;
use mirror_writer::WriteBytes;
use std::alloc::Global;
use std::marker::Model;

/// The name of a file: at most 255 bytes of UTF-8.
#[derive(Debug, Drop)]
pub struct FileName {
    name: String,
}

impl Model for FileName {
    ghost use Rattle.std.specs.Prelude.{List, ℕ, ◌≤◌, length, string_bytes};

    ghost Value = { List ℕ };

    ghost view = { λ n. string_bytes n.name };

    ghost invariant = { λ n. length (string_bytes n.name) ≤ 255 };
}

impl FileName {
    /// A copy of a name of at most 255 bytes.
    pub fn of(alloc: Global, name: &str) -> Result<FileName, NoMemory>
        requires { length name.now ≤ 255 }
        ensures { IfOk result (λ copy. copy ≡ name.now) }
    {
        let name = String::from_str(alloc, name)?;
        Ok(FileName { name })
    }

    /// The text.
    pub fn text(&self) -> &str
        ensures text { result.now ≡ self.now }
        ensures few { length self.now ≤ 255 }
    {
        self.name.as_str()
    }
}

/// What a user asks for.
#[derive(Debug, Drop)]
pub enum UserRequest {
    /// The file of this name is opened.
    Open(FileName),
    /// Bytes are written from this place of the file on, to all mirrors.
    Write { at: u64, bytes: WriteBytes },
    /// The same, through the metadata server.
    Through { at: u64, bytes: WriteBytes },
    /// What was written so far is committed.
    Commit,
    /// So many bytes are read from this place on, through the metadata server.
    Read { at: u64, count: u32 },
    /// The layout is given back.
    Return,
}
