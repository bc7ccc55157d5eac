//! The script of a number.

ghost use Rattle.std.specs.Prelude.{◌≡◌};
ghost use Rattle.rpc_record.specs.Stream.{counted};
ghost use Rattle.ff_xdr.specs.Calls.{Grows};
ghost use Rattle.line_runs.specs.Writing.{WritesText};
ghost use Rattle.script_gen.specs.Generated.{drawn_text, generated};

use crate::draws::Draws;
use crate::line::put_line;
use ff_xdr::{NoMemory, Out};
use line_runs::write_all;
use rpc_record::{Failed, Sink};
use std::alloc::Global;

/// So many lines are drawn.
const DRAWN_LINES: u32 = 2000;

/// Appends so many drawn lines.
fn put_drawn(draws: &mut Draws, count: u32, out: &mut Out) -> Result<(), NoMemory>
    ensures { Grows out.old result out.new (drawn_text count draws.old) }
{
    for _ in 0..count {
        put_line(draws.line(), out)?;
    }
    Ok(())
}

/// Appends the script of a number.
fn put_script(seed: u64, out: &mut Out) -> Result<(), NoMemory>
    ensures { Grows out.old result out.new (generated seed) }
{
    out.raw(b"cluster 4 3 4\nopen c1 a\nopen c2 a\nopen c3 b\nopen c4 b\nflow\n")?;
    put_drawn(&mut Draws::new(seed), DRAWN_LINES, out)?;
    out.raw(b"tick 91\nflow\naudit 1\naudit 2\n")
}

/// Writes the script of a number to `sink`: a setup line, 2,000 lines that are drawn and those that open and
/// end it, 2,010 in all. At an error of the sink, or where memory was wanted, a beginning of it was
/// written.
pub fn generate<K: Sink>(alloc: Global, seed: u64, sink: &mut K) -> Result<(), Failed>
    ensures told { WritesText (K.held sink.old) (generated seed) result (K.held sink.new) }
    ensures faults { K.faults sink.new ≡ counted result (K.faults sink.old) }
{
    let mut script = Out::new(alloc);
    if put_script(seed, &mut script).is_err() {
        return Err(Failed::NoMemory);
    }
    write_all(sink, script.bytes())
}
