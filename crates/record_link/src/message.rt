//! What a record is: a call, a reply, or neither (RFC 5531, section 9).

ghost use Rattle.std.specs.Prelude.{◌≡◌, ◌≤◌, length};
ghost use Rattle.rpc_record.specs.Calls.{word_of};
ghost use Rattle.record_link.specs.Messages.{has_type, is_call_record, is_reply_record, unanswered_behind, unanswered_after};

/// The type of a call.
const CALL: u32 = 0;

/// The type of a reply.
const REPLY: u32 = 1;

/// The type that stands behind a message's number.
#[tactic(auto, unfolding(rpc_record::specs::Calls::word_of))]
fn type_of(message: &[u8]) -> u32
    requires { 8 ≤ length message.now }
    ensures { result ≡ word_of message.now 4 }
{
    let word = &message[4..8];
    u32::from_be_bytes([word[0], word[1], word[2], word[3]])
}

/// Whether a record is of this type.
fn has_type(kind: u32, message: &[u8]) -> bool
    ensures { result ≡ has_type kind message.now }
{
    message.len() >= 8 && type_of(message) == kind
}

/// Whether a record is a call.
pub fn is_call_record(message: &[u8]) -> bool
    ensures { result ≡ is_call_record message.now }
{
    has_type(CALL, message)
}

/// Whether a record is a reply.
pub fn is_reply_record(message: &[u8]) -> bool
    ensures { result ≡ is_reply_record message.now }
{
    has_type(REPLY, message)
}

/// How many calls are unanswered behind a record that came.
pub fn unanswered_behind(came: &[u8], unanswered: u64) -> u64
    ensures { result ≡ unanswered_behind came.now unanswered }
{
    if is_call_record(came) {
        unanswered.saturating_add(1)
    } else {
        unanswered
    }
}

/// How many are unanswered behind a record that goes.
pub fn unanswered_after(goes: &[u8], unanswered: u64) -> u64
    ensures { result ≡ unanswered_after goes.now unanswered }
{
    if is_reply_record(goes) {
        unanswered.saturating_sub(1)
    } else {
        unanswered
    }
}
