//! What holds of a writer in every run of it.

ghost use Rattle.mirror_writer.specs.WriterLaws.{WriterLaw};

/// The taken writes are disjoint; a taken write is covered at a mirror from the moment on at which an OK answer to a
/// COMMIT there has the verifier of the last OK answer there to a WRITE of it that came before this COMMIT was sent; a
/// mirror counts as committed just where each taken write is covered there; `Committed` is told just where this reply is an OK answer to a COMMIT and with it each mirror that has not failed is
/// committed; and each WRITE has a taken write's place and bytes (RFC 1813, sections 3.3.7 and 3.3.21).
pub fn writer_law()
    ensures { WriterLaw }
{}
