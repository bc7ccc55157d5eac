//! Bytes as text: hexadecimal digits in pairs, in lower case, and `-` for no bytes.

ghost use Rattle.std.specs.Prelude.{◌≤◌, length};
ghost use Rattle.ff_xdr.specs.Calls.{Puts, Grows};
ghost use Rattle.hex.specs.Hex.{encode_lower};
ghost use Rattle.cluster_model.specs.Wordings.{text_of_bytes};

use ff_xdr::{NoMemory, Out};

/// So many bytes are turned into digits at a time.
const CHUNK: usize = 2048;

/// Appends the digits of a few bytes.
fn put_chunk(bytes: &[u8], out: &mut Out) -> Result<(), NoMemory>
    requires { length bytes.now ≤ CHUNK }
    ensures { Puts out.old result out.new (encode_lower bytes.now) }
{
    let mut room = [0; 2 * CHUNK];
    let digits = &mut room[..2 * bytes.len()];
    let _ = hex::encode_to_slice(bytes, digits);
    out.raw(digits)
}

/// Appends the digits of some bytes, by chunks.
fn put_chunks(bytes: &[u8], out: &mut Out) -> Result<(), NoMemory>
    ensures { Grows out.old result out.new (encode_lower bytes.now) }
{
    let mut rest = bytes;
    while !rest.is_empty() {
        let (chunk, behind) = rest.split_at(rest.len().min(CHUNK));
        put_chunk(chunk, out)?;
        rest = behind;
    }
    Ok(())
}

/// Appends bytes as text.
pub fn put_hex(bytes: &[u8], out: &mut Out) -> Result<(), NoMemory>
    ensures { Grows out.old result out.new (text_of_bytes bytes.now) }
{
    if bytes.is_empty() {
        return out.raw(b"-");
    }
    put_chunks(bytes, out)
}
