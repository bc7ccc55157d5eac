//! What a client sends and enters, whatever comes to it.

ghost use Rattle.std.specs.Prelude.{ℕ, List};
ghost use Rattle.client_state.specs.ClientStates.{ClientValue};
ghost use Rattle.client_state.specs.ClientSends.{ClientSend};
ghost use Rattle.client_laws.specs.ClientHistory.{ClientInput};
ghost use Rattle.client_sends.specs.SendsOfUsers.{SendsAsUser, EntersAsUser, IsRecordOfUser};

/// Whatever a client is and whatever comes to it: each call that it sends to a data server, new or repeated, is a WRITE, a
/// COMMIT or a READ (RFC 1813, section 3.3), and of what a run of the machine tells it enters writes alone: that were taken,
/// that strayed, that were told. The record of such a call names no SETATTR and no CREATE, whatever numbers are in it (RFC
/// 5531, section 9).
pub fn client_sends()
    ensures sends { (c : ClientValue) (input : ClientInput) → SendsAsUser input c }
    ensures entries { (c : ClientValue) (input : ClientInput) → EntersAsUser input c }
    ensures records { (s : ClientSend) (server : ℕ) (bytes : List ℕ) → IsRecordOfUser s server bytes }
{}
