//! Numbers, machines and mirrors as text, and the words of phases and causes.

ghost use Rattle.std.specs.Prelude.{◌≡◌, ◌++◌, codes, decimal};
ghost use Rattle.ff_xdr.specs.Calls.{Puts, Grows};
ghost use Rattle.cluster_model.specs.Wordings.{end_text, phase_text};
ghost use Rattle.cluster_model.specs.Print.{node_text, mirror_text, old_text};

use cluster_model::{EndCause, MirrorId, NodeId, Phase};
use ff_xdr::{NoMemory, Out};
use itoa::Buffer;

/// Appends a number.
pub fn put_number(number: u64, out: &mut Out) -> Result<(), NoMemory>
    ensures { Puts out.old result out.new (decimal number) }
{
    let mut buffer = Buffer::new();
    out.raw(buffer.format(number).as_bytes())
}

/// Appends a text and a decimal number. At an error a part of it may stand.
pub fn put_numbered(text: &[u8], number: u64, out: &mut Out) -> Result<(), NoMemory>
    ensures { Grows out.old result out.new (text.now ++ decimal number) }
{
    out.raw(text)?;
    put_number(number, out)
}

/// Appends a machine.
pub fn put_node(node: NodeId, out: &mut Out) -> Result<(), NoMemory>
    ensures { Grows out.old result out.new (node_text node) }
{
    match node {
        NodeId::Mds => out.raw(b"m"),
        NodeId::Server(number) => put_numbered(b"d", u64::from(number), out),
        NodeId::Client(number) => put_numbered(b"c", u64::from(number), out),
    }
}

/// Appends a mirror.
pub fn put_mirror(mirror: MirrorId, out: &mut Out) -> Result<(), NoMemory>
    ensures { Grows out.old result out.new (mirror_text mirror) }
{
    put_numbered(b"d", u64::from(mirror.server), out)?;
    put_numbered(b".", mirror.fileid, out)
}

/// Appends the mirror that another replaces, if there is one.
pub fn put_old(old: Option<MirrorId>, out: &mut Out) -> Result<(), NoMemory>
    ensures { Grows out.old result out.new (old_text old) }
{
    match old {
        None => out.raw(b"-"),
        Some(mirror) => put_mirror(mirror, out),
    }
}

/// Appends a space and a machine.
pub fn put_next_node(node: NodeId, out: &mut Out) -> Result<(), NoMemory>
    ensures { Grows out.old result out.new (codes " " ++ node_text node) }
{
    out.raw(b" ")?;
    put_node(node, out)
}

/// Appends a space and a mirror.
pub fn put_next_mirror(mirror: MirrorId, out: &mut Out) -> Result<(), NoMemory>
    ensures { Grows out.old result out.new (codes " " ++ mirror_text mirror) }
{
    out.raw(b" ")?;
    put_mirror(mirror, out)
}

/// Appends a space, a word and the line's end.
pub fn put_last(word: &[u8], out: &mut Out) -> Result<(), NoMemory>
    ensures { Grows out.old result out.new (codes " " ++ word.now ++ codes "\n") }
{
    out.raw(b" ")?;
    out.raw(word)?;
    out.raw(b"\n")
}

/// The word of a phase.
pub fn phase_word(phase: Phase) -> &'static [u8]
    ensures { result.now ≡ phase_text phase }
{
    match phase {
        Phase::Making => b"making",
        Phase::Free => b"free",
        Phase::Held => b"held",
        Phase::Fencing => b"fencing",
        Phase::Settling => b"settling",
        Phase::Copying => b"copying",
    }
}

/// The word of a period's end.
pub fn end_word(cause: EndCause) -> &'static [u8]
    ensures { result.now ≡ end_text cause }
{
    match cause {
        EndCause::Returned => b"returned",
        EndCause::Own => b"own",
        EndCause::AllReported => b"allreported",
        EndCause::Recalled => b"recalled",
        EndCause::Lease => b"lease",
        EndCause::NoLayout => b"nolayout",
        EndCause::ClientGone => b"clientgone",
        EndCause::ReturnedAll => b"returnedall",
    }
}
