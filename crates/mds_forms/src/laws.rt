//! What a metadata server enters and sends is in form, whatever comes to it.

ghost use Rattle.mds_forms.specs.Forms.{MdsStaysInForm};

/// What an event of a metadata server enters is no packet, whatever comes to it. The number of each call that it sends has
/// four bytes (RFC 5531, section 9), and what it answers at once is answered by the record of a reply.
pub fn mds_forms()
    ensures { MdsStaysInForm }
{}
