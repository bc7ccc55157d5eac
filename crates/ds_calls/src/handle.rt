//! Handles of a data server: the fileid as eight bytes (RFC 1813, section 2.5).

ghost use Rattle.std.specs.Prelude.{◌≡◌};
ghost use Rattle.ds_calls.specs.MadeCalls.{fileid_handle};
ghost use Rattle.ds_calls.specs.GivenReplies.{handle_fileid};

/// The root's fileid.
pub const ROOT: u64 = 1;

/// The handle of the object with this fileid.
#[tactic(auto, unfolding(ff_xdr::specs::Form::long))]
pub fn handle_of(fileid: u64) -> [u8; 8]
    ensures { result ≡ fileid_handle fileid }
{
    fileid.to_be_bytes()
}

/// The fileid that a handle is; none where it has not eight bytes.
pub fn fileid_of(handle: &[u8]) -> Option<u64>
    ensures { result ≡ handle_fileid handle.now }
{
    match handle {
        [a, b, c, d, e, f, g, h] => { Some(u64::from_be_bytes([*a, *b, *c, *d, *e, *f, *g, *h])) }
        _ => None,
    }
}
