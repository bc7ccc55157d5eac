//! What holds of opens in every run of them.

ghost use Rattle.open_state.specs.OneClient.{OneClientLaw};
ghost use Rattle.open_state.specs.OpensLaws.{OpensLaw};

/// Whatever calls are made, a file is open for a client just where it was opened, and neither closed since nor ended with
/// its client; a client has at most 64; a number is given for one client and one file alone, and not again once its open
/// has ended; numbers and seqids have four bytes and are not 0 (RFC 8881, sections 8.2, 18.2 and 18.16).
pub fn opens_law()
    ensures { OpensLaw }
{}

/// A call of one client changes what it has open, as its operation says, and what no other has open.
pub fn one_client_law()
    ensures { OneClientLaw }
{}
