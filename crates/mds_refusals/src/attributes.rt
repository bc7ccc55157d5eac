//! GETATTR: attributes of an object (RFC 8881, sections 5.8 and 18.7).

ghost use Rattle.std.specs.Prelude.{◌≡◌, ◌++◌, [], ◌∷◌};
ghost use Rattle.ff_xdr.specs.Form.{word, long};
ghost use Rattle.ff_xdr.specs.Calls.{Grows, Puts};
ghost use Rattle.mds_refusals.specs.Attributes.{asked_of, first_word, second_word, when, supported_value, type_value, layout_types_value, values_of};

use crate::Object;
use crate::layout_get::FLEX_FILES;
use ff_xdr::{NoMemory, Out};

/// A lease, in seconds.
pub const LEASE_TIME: u32 = 90;

/// The attributes of the first word that there are: supported_attrs 0, type 1, change 3, size 4, lease_time 10.
pub const FIRST_WORD: u32 = 0x0000_041b;

/// Those of the second word: fs_layout_types 62.
pub const SECOND_WORD: u32 = 0x4000_0000;

/// NF4REG (RFC 8881, section 3.3.13).
pub const REGULAR: u32 = 1;

/// NF4DIR (RFC 8881, section 3.3.13).
pub const DIRECTORY: u32 = 2;

/// What an object's attributes say, but for those that are the same of every object.
#[derive(Clone, Copy, Debug, PartialEq, Eq)]
pub struct Attributes {
    pub object: Object,
    /// Of a file how many periods were granted and ended, of the root how many files there are.
    pub change: u64,
    /// In bytes.
    pub size: u64,
}

/// Which attributes are asked for, of those that there are.
#[derive(Clone, Copy, Debug, PartialEq, Eq)]
pub struct AskedAttributes {
    pub supported: bool,
    pub object_type: bool,
    pub change: bool,
    pub size: bool,
    pub lease_time: bool,
    pub layout_types: bool,
}

impl AskedAttributes {
    /// Those of the first two words of a bitmap; a word that is not there is 0.
    pub fn of(first: u32, second: u32) -> AskedAttributes
        ensures { result ≡ asked_of first second }
    {
        AskedAttributes {
            supported: first % 2 == 1,
            object_type: first / 2 % 2 == 1,
            change: first / 8 % 2 == 1,
            size: first / 16 % 2 == 1,
            lease_time: first / 1_024 % 2 == 1,
            layout_types: second / 1_073_741_824 % 2 == 1,
        }
    }

    /// Their bitmap's first word.
    pub fn first_word(self) -> u32
        ensures { result ≡ first_word self }
    {
        u32::from(self.supported)
            + 2 * u32::from(self.object_type)
            + 8 * u32::from(self.change)
            + 16 * u32::from(self.size)
            + 1_024 * u32::from(self.lease_time)
    }

    /// Their bitmap's second word.
    pub fn second_word(self) -> u32
        ensures { result ≡ second_word self }
    {
        1_073_741_824 * u32::from(self.layout_types)
    }

    /// Appends their values, in the order of their numbers.
    ///
    /// # Errors
    /// `NoMemory` where memory is wanted. Nothing has changed then.
    pub fn put(self, of: Attributes, out: &mut Out) -> Result<(), NoMemory>
        ensures { Puts out.old result out.new (values_of self of) }
    {
        let mark = out.len();
        if let Err(e) = put_values(self, of, out) {
            out.truncate(mark);
            return Err(e);
        }
        Ok(())
    }
}

/// Appends the values; at an error it may have appended a part.
fn put_values(asked: AskedAttributes, of: Attributes, out: &mut Out) -> Result<(), NoMemory>
    ensures { Grows out.old result out.new (values_of asked of) }
{
    put_supported(asked.supported, out)?;
    put_type(asked.object_type, of.object, out)?;
    put_long(asked.change, of.change, out)?;
    put_long(asked.size, of.size, out)?;
    put_word(asked.lease_time, LEASE_TIME, out)?;
    put_layout_types(asked.layout_types, out)
}

/// The attributes that there are, as a bitmap.
fn put_supported(is_asked: bool, out: &mut Out) -> Result<(), NoMemory>
    ensures { Grows out.old result out.new (when is_asked supported_value) }
{
    if !is_asked {
        return Ok(());
    }
    out.number32(2)?;
    out.number32(FIRST_WORD)?;
    out.number32(SECOND_WORD)
}

/// The kind of object.
fn put_type(is_asked: bool, object: Object, out: &mut Out) -> Result<(), NoMemory>
    ensures { Grows out.old result out.new (when is_asked (type_value object)) }
{
    match object {
        Object::Root => put_word(is_asked, DIRECTORY, out),
        Object::File(_) => put_word(is_asked, REGULAR, out),
    }
}

/// The types of layouts that there are, as a list.
fn put_layout_types(is_asked: bool, out: &mut Out) -> Result<(), NoMemory>
    ensures { Grows out.old result out.new (when is_asked layout_types_value) }
{
    if !is_asked {
        return Ok(());
    }
    out.number32(1)?;
    out.number32(FLEX_FILES)
}

/// A number of four bytes.
fn put_word(is_asked: bool, n: u32, out: &mut Out) -> Result<(), NoMemory>
    ensures { Grows out.old result out.new (when is_asked (word n)) }
{
    if !is_asked {
        return Ok(());
    }
    out.number32(n)
}

/// A number of eight bytes.
fn put_long(is_asked: bool, n: u64, out: &mut Out) -> Result<(), NoMemory>
    ensures { Grows out.old result out.new (when is_asked (long n)) }
{
    if !is_asked {
        return Ok(());
    }
    out.number64(n)
}
