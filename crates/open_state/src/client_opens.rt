//! What one client has open.

ghost use Rattle.std.specs.Prelude.{◌≡◌, ◌++◌, [], ◌∷◌, length, map, filter, find, IfOk, OnOk, OnErr};
ghost use Rattle.open_state.specs.Opens.{is_of, is_other, in_place};

use crate::open::Open;
use cluster_model::FileId;
use ff_xdr::NoMemory;
use std::alloc::Global;
use std::marker::Model;

/// What one client has open, in the order in which it began. Clauses see a list.
#[derive(Drop)]
pub struct ClientOpens {
    opens: Vec<Open>,
}

impl Model for ClientOpens {
    ghost use Rattle.std.specs.Prelude.{List};
    ghost use Rattle.open_state.specs.declared.open.Open.{Open};

    ghost Value = { List Open };

    ghost view = { λ c. c.opens.items };
}

impl ClientOpens {
    /// This one alone.
    ///
    /// # Errors
    /// `NoMemory` where memory is wanted.
    pub fn of(first: Open, alloc: Global) -> Result<ClientOpens, NoMemory>
        ensures { IfOk result (λ c. c ≡ first ∷ []) }
    {
        let mut opens = Vec::new(alloc);
        opens.push(first)?;
        Ok(ClientOpens { opens })
    }

    /// How many there are.
    pub fn len(&self) -> usize
        ensures { result ≡ length self.now }
    {
        self.opens.len()
    }

    /// The one of this file.
    pub fn find(&self, file: FileId) -> Option<Open>
        ensures { result ≡ find (is_of file) self.now }
    {
        found(file, self.opens.as_slice())
    }

    /// One more, behind the others.
    ///
    /// # Errors
    /// `NoMemory` where memory is wanted. Nothing has changed then.
    pub fn push(&mut self, newest: Open) -> Result<(), NoMemory>
        ensures ok { OnOk result (self.new ≡ self.old ++ newest ∷ []) }
        ensures err { OnErr result (self.new ≡ self.old) }
    {
        self.opens.push(newest)?;
        Ok(())
    }

    /// This one stands where one of its file stood.
    pub fn replace(&mut self, given: Open)
        ensures { self.new ≡ map (in_place given) self.old }
    {
        put_in_place(given, self.opens.as_mut_slice());
    }

    /// The one of this file is gone.
    pub fn remove(&mut self, file: FileId)
        ensures { self.new ≡ filter (is_other file) self.old }
    {
        self.opens.retain(|open| open.file != file);
    }
}

/// The first of this file.
fn found(file: FileId, opens: &[Open]) -> Option<Open>
    ensures { result ≡ find (is_of file) opens.now }
{
    for open in opens {
        if open.file == file {
            return Some(*open);
        }
    }
    None
}

/// The one, where the other is of its file; else the other.
fn in_place(given: Open, other: Open) -> Open
    ensures { result ≡ in_place given other }
{
    if other.file == given.file {
        given
    } else {
        other
    }
}

/// It stands where one of its file stood.
fn put_in_place(given: Open, opens: &mut [Open])
    ensures { opens.new ≡ map (in_place given) opens.old }
{
    for other in opens {
        *other = in_place(given, *other);
    }
}
