//! What holds of the rule of a client.

ghost use Rattle.std.specs.Prelude.{Option};
ghost use Rattle.client_mds_calls.specs.declared.ask.MdsAsk.{MdsAsk};
ghost use Rattle.client_state.specs.ClientStates.{ClientValue};
ghost use Rattle.client_state.specs.ClientSends.{ClientSend};
ghost use Rattle.client_calls.specs.ClientLaws.{NumbersCalls, SpellsNumber, CallsItsMirrors};

/// Whatever a client has, and whatever the head of its queue wants, what goes out at the end of an event are new
/// calls, which take the numbers from its next on, one after the other, each once; the record of such a call begins
/// with its number (RFC 5531, section 9). And none goes to a data server on which its layout has no mirror (RFC 8435,
/// section 2.2).
pub fn client_law()
    ensures numbers { (c : ClientValue) (wants : Option MdsAsk) → NumbersCalls c wants }
    ensures spelled { (s : ClientSend) → SpellsNumber s }
    ensures mirrors { (c : ClientValue) (wants : Option MdsAsk) → CallsItsMirrors c wants }
{}
