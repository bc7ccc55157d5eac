//! Handles of files.

ghost use Rattle.std.specs.Prelude.{◌≡◌, refl};
ghost use Rattle.nfs4_types.specs.Handles.{nfs_fh4, file_handle_of, file_number_of};

use ff_xdr::{Cursor, Message, NoMemory, Opaque, Out, Wire, XdrError};

/// The longest handle, in bytes (RFC 8881, section 3.1, `NFS4_FHSIZE`).
pub const MAX_HANDLE4: u32 = 128;

/// The handle of a file, `nfs_fh4` (RFC 8881, section 3.2).
#[derive(Clone, Copy, Debug, PartialEq, Eq)]
pub struct Handle4<'a> {
    /// At most 128 bytes.
    pub bytes: &'a [u8],
}

/// The bytes of a handle.
type Bytes4<'a> = Opaque<'a, MAX_HANDLE4>;

impl<'a> Message for Handle4<'a> {
    ghost form = { nfs_fh4 };

    ghost meaning = { λ handle. handle.bytes.now };

    ghost sound = { refl };
}

impl<'a> Wire<'a> for Handle4<'a> {
    fn read(cursor: &mut Cursor<'a>) -> Result<Handle4<'a>, XdrError> {
        let handle = Bytes4::read(cursor)?;
        Ok(Handle4 {
            bytes: handle.bytes,
        })
    }

    fn put(&self, out: &mut Out) -> Result<(), NoMemory> {
        Bytes4 { bytes: self.bytes }.put(out)
    }

    fn fits(&self) -> bool {
        Bytes4 { bytes: self.bytes }.fits()
    }
}

/// The handle of a file of the metadata server: its number as eight bytes, the highest first. The root
/// has number 0.
#[tactic(auto, unfolding(ff_xdr::specs::Form::long))]
pub fn file_handle(file: u64) -> [u8; 8]
    ensures { result ≡ file_handle_of file }
{
    file.to_be_bytes()
}

/// The number of which a handle is that of a file: `None` where the handle has not eight bytes.
pub fn file_number(handle: &[u8]) -> Option<u64>
    ensures { result ≡ file_number_of handle.now }
{
    if handle.len() != 8 {
        return None;
    }
    let mut bytes = [0; 8];
    bytes.copy_from_slice(handle);
    Some(u64::from_be_bytes(bytes))
}
