//! What holds of a read and of a write of the metadata server in every run of it.

ghost use Rattle.mds_io.specs.ReadLaws.{ReadLaw};
ghost use Rattle.mds_io.specs.OwnWriteLaws.{OwnWriteLaw};

use mirror_writer::writer_law;

/// The failures of a read are those that the notes of what was sent and answered tell; the bytes with which it ends are those
/// of an answer to the READ that is out, and it ends for want of bytes just where each mirror failed; and a READ goes to the
/// mirror behind those that failed, while none is out (RFC 8881, section 18.22; RFC 1813, section 3.3.6).
pub fn read_law()
    ensures { ReadLaw }
{}

/// An own write has ended just where each mirror has failed or has covered it: an OK answer to a COMMIT there has the verifier
/// of the last OK answer there to its WRITE that came before this COMMIT was sent. Its WRITEs have its place and its bytes,
/// and no status fences it (RFC 8881, section 18.32; RFC 1813, sections 3.3.7 and 3.3.21).
pub fn own_write_law()
    ensures { OwnWriteLaw }
{
    writer_law();
}
