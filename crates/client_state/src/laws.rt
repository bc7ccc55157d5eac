//! What holds of the queue of a client.

ghost use Rattle.std.specs.Prelude.{Option};
ghost use Rattle.client_file_calls.specs.declared.open.OpenFile.{OpenFile};
ghost use Rattle.client_state.specs.declared.request.UserRequest.{UserRequest};
ghost use Rattle.client_state.specs.ClientStates.{ClientValue};
ghost use Rattle.client_state.specs.ClientQueue.{head_step};
ghost use Rattle.client_state.specs.QueueLaws.{WaitsForCause};

/// Whatever a client has: where the request at the head is kept and nothing is asked for it, something is under
/// way. The layout is being given back, or a write under it is not told yet.
pub fn queue_law()
    ensures { (c : ClientValue) (file : Option OpenFile) (request : UserRequest) → WaitsForCause (head_step c file request) }
{}
