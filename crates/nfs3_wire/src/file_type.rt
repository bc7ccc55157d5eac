//! What an object is.

ghost use Rattle.std.specs.Prelude.{◌≡◌, refl};
ghost use Rattle.nfs3_wire.specs.FileTypes.{ftype3, file_type_number};

use ff_xdr::{Cursor, Message, NoMemory, Out, Wire, XdrError};

/// What an object is (RFC 1813, section 2.5, `ftype3`). Only the two kinds that a data server has are
/// in the form.
#[derive(Clone, Copy, Debug, PartialEq, Eq)]
pub enum FileType {
    Regular,
    Directory,
}

impl FileType {
    /// The number of the kind.
    pub fn number(self) -> u32
        ensures { result ≡ file_type_number self }
    {
        match self {
            FileType::Regular => 1,
            FileType::Directory => 2,
        }
    }
}

impl Message for FileType {
    ghost form = { ftype3 };

    ghost meaning = { file_type_number };

    ghost sound = { refl };
}

impl<'a> Wire<'a> for FileType {
    fn read(cursor: &mut Cursor<'a>) -> Result<FileType, XdrError> {
        let mut fork = cursor.fork();
        let kind = match fork.number32()? {
            1 => FileType::Regular,
            2 => FileType::Directory,
            _ => return Err(XdrError::not_enum(cursor.place())),
        };
        *cursor = fork;
        Ok(kind)
    }

    fn put(&self, out: &mut Out) -> Result<(), NoMemory> {
        self.number().put(out)
    }

    fn fits(&self) -> bool {
        // the variant is looked at, so that the check knows that its number is one of the form's
        let _kind = *self;
        true
    }
}
