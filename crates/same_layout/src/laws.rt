//! A layout that is granted is the one that its client reads.

ghost use Rattle.same_layout.specs.SameLayout.{IsReadAsGranted};

use ff_layout::every_body;

/// The result of a LAYOUTGET that grants one to four mirrors, on different data servers, is read by a client as just this: the
/// stateid, the uid under which it writes, and the data servers with the file's numbers there, in order (RFC 8881, section 18.43;
/// RFC 8435, section 5.1).
pub fn same_layout()
    ensures { IsReadAsGranted }
{
    every_body();
}
