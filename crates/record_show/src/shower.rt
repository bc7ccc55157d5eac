//! What records are, a line for each.

ghost use Rattle.std.specs.Prelude.{◌≡◌, ⊤, IsTrue, Result};
ghost use Rattle.ff_xdr.specs.Calls.{Puts, Grows, Finds};
ghost use Rattle.ff_xdr.specs.Form.{has_arm};
ghost use Rattle.ff_xdr.specs.Reading.{rest_of};
ghost use Rattle.rpc_record.specs.Calls.{RpcCall, rpc_call};
ghost use Rattle.rpc_record.specs.declared.call.CallFault.{CallFault};
ghost use Rattle.rpc_record.specs.Replies.{reply_stat, reply_at};
ghost use Rattle.nfs3_wire.specs.Calls.{calls};
ghost use Rattle.line_runs.specs.Runs.{Runs, read_faults, write_faults};
ghost use Rattle.record_show.specs.Show.{why_text, bad_text, args_of, args_text, compound_text, cb_compound_text, verdict_text, program_text, procedure_text, call_text, stat_text, refused_text, reply_text, found_text, record_line, line_shown, show_budget, show_meaning, ShowsLine};

use ff_script::Digits;
use ff_xdr::{Cursor, NoMemory, Out, XdrError, XdrWhy};
use itoa::Buffer;
use journal_print::put_numbered;
use line_runs::{LineStep, LineTask, RunEnd, run_lines};
use nfs3_wire::{is_built, read_call};
use nfs4_compound::{judge_cb_compound, judge_compound};
use rpc_record::{Call, CallFault, NFS_PROGRAM, Reply, ReplyBody, Sink, Source};
use std::alloc::Global;

/// The program number of the callbacks of the cluster's clients, in the transient range (RFC 5531, section 8.3).
pub const CALLBACK_PROGRAM: u32 = 1_073_741_824;

/// Do nothing (RFC 8881, section 16.1).
pub const NULL: u32 = 0;

/// A compound (RFC 8881, sections 16.2 and 20.2).
pub const COMPOUND: u32 = 1;

/// The name of a refusal.
fn why_text(why: XdrWhy) -> &'static [u8]
    ensures { result.now ≡ why_text why }
{
    match why {
        XdrWhy::Short => b"short",
        XdrWhy::Pad => b"pad",
        XdrWhy::NotBool => b"notbool",
        XdrWhy::NotEnum => b"notenum",
        XdrWhy::TooLong => b"toolong",
        XdrWhy::NotUtf8 => b"notutf8",
        XdrWhy::Rest => b"rest",
    }
}

/// Appends where a refusal is, and why.
#[tactic(auto, unfolding(crate::specs::Show::bad_text))]
fn put_bad(place: u128, why: XdrWhy, out: &mut Out) -> Result<(), NoMemory>
    ensures { Grows out.old result out.new (bad_text place why) }
{
    let mut buffer = Buffer::new();
    out.raw(b"bad ")?;
    out.raw(buffer.format(place).as_bytes())?;
    out.raw(b" ")?;
    out.raw(why_text(why))
}

/// Appends what is refused of a record.
fn put_refused(error: XdrError, out: &mut Out) -> Result<(), NoMemory>
    ensures { Grows out.old result out.new (refused_text error) }
{
    out.raw(b"record ")?;
    put_bad(error.place as u128, error.why, out)
}

/// Appends what arguments are that were judged so.
fn put_judged(header: usize, judged: Result<(), XdrError>, out: &mut Out) -> Result<(), NoMemory>
    ensures { Grows out.old result out.new (args_text header judged) }
{
    match judged {
        Ok(()) => out.raw(b"good"),
        Err(error) => put_bad(header as u128 + error.place as u128, error.why, out),
    }
}

/// Appends what the arguments of a procedure of NFSv3 that is built are, which stand behind a header of
/// so many bytes.
fn put_args(header: usize, call: &Call<'_>, out: &mut Out) -> Result<(), NoMemory>
    requires { IsTrue (has_arm call.now.procedure calls) }
    ensures { Grows out.old result out.new (args_text header (args_of (rpc_call call.now))) }
{
    match read_call(call.procedure, call.args) {
        Ok(_) => put_judged(header, Ok(()), out),
        Err(error) => put_judged(header, Err(error), out),
    }
}

/// Judges the arguments of a NULL: there are none.
fn judge_null(args: &[u8]) -> Result<(), XdrError>
    ensures { result ≡ rest_of args.now 0 }
{
    Cursor::new(args).finish()
}

/// Appends what the arguments of a procedure of NFSv4.1 are.
#[tactic(auto, unfolding(crate::specs::Show::compound_text))]
fn put_compound(header: usize, call: &Call<'_>, out: &mut Out) -> Result<(), NoMemory>
    ensures { Grows out.old result out.new (compound_text header (rpc_call call.now)) }
{
    match call.procedure {
        NULL => put_judged(header, judge_null(call.args), out),
        COMPOUND => put_judged(header, judge_compound(call.args), out),
        _ => out.raw(b"unbuilt"),
    }
}

/// Appends what the arguments of a callback are.
#[tactic(auto, unfolding(crate::specs::Show::cb_compound_text))]
fn put_cb_compound(header: usize, call: &Call<'_>, out: &mut Out) -> Result<(), NoMemory>
    ensures { Grows out.old result out.new (cb_compound_text header (rpc_call call.now)) }
{
    match call.procedure {
        NULL => put_judged(header, judge_null(call.args), out),
        COMPOUND => put_judged(header, judge_cb_compound(call.args), out),
        _ => out.raw(b"unbuilt"),
    }
}

/// Appends what the arguments of a call are.
#[tactic(auto, unfolding(crate::specs::Show::verdict_text))]
fn put_verdict(header: usize, call: &Call<'_>, out: &mut Out) -> Result<(), NoMemory>
    ensures { Grows out.old result out.new (verdict_text header (rpc_call call.now)) }
{
    match (call.program, call.version) {
        (NFS_PROGRAM, 3) if is_built(call.procedure) => put_args(header, call, out),
        (NFS_PROGRAM, 4) => put_compound(header, call, out),
        (CALLBACK_PROGRAM, 1) => put_cb_compound(header, call, out),
        _ => out.raw(b"unbuilt"),
    }
}

/// Appends the number of a call, its program and its version.
#[tactic(auto, unfolding(crate::specs::Show::program_text))]
fn put_program(call: &Call<'_>, out: &mut Out) -> Result<(), NoMemory>
    ensures { Grows out.old result out.new (program_text (rpc_call call.now)) }
{
    put_numbered(b"call ", u64::from(call.xid), out)?;
    put_numbered(b" ", u64::from(call.program), out)?;
    put_numbered(b" ", u64::from(call.version), out)
}

/// Appends the procedure of a call, and how many bytes of arguments there are.
#[tactic(auto, unfolding(crate::specs::Show::procedure_text))]
fn put_procedure(call: &Call<'_>, out: &mut Out) -> Result<(), NoMemory>
    ensures { Grows out.old result out.new (procedure_text (rpc_call call.now)) }
{
    put_numbered(b" ", u64::from(call.procedure), out)?;
    put_numbered(b" ", call.args.len() as u64, out)?;
    out.raw(b" ")
}

/// Appends the line of a call, of a record of so many bytes.
fn put_call(size: usize, call: &Call<'_>, out: &mut Out) -> Result<(), NoMemory>
    ensures { Grows out.old result out.new (call_text size (rpc_call call.now)) }
{
    put_program(call, out)?;
    put_procedure(call, out)?;
    put_verdict(size.saturating_sub(call.args.len()), call, out)
}

/// Appends how a call was answered.
fn put_stat(body: &ReplyBody<'_>, out: &mut Out) -> Result<(), NoMemory>
    ensures { Grows out.old result out.new (stat_text (reply_stat body.now)) }
{
    let number = u64::from(body.stat());
    if body.is_denied() {
        put_numbered(b" denied ", number, out)
    } else {
        put_numbered(b" accepted ", number, out)
    }
}

/// Appends the line of a record that is no call.
fn put_reply(message: &[u8], out: &mut Out) -> Result<(), NoMemory>
    ensures { Grows out.old result out.new (reply_text (reply_at message.now)) }
{
    match Reply::read(message) {
        Ok(reply) => {
            put_numbered(b"reply ", u64::from(reply.xid), out)?;
            put_stat(&reply.body, out)
        }
        Err(error) => put_refused(error, out),
    }
}

/// Appends what a record is, by what was found of it as a call.
fn put_found(
    message: &[u8],
    found: Result<Call<'_>, CallFault>,
    out: &mut Out,
) -> Result<(), NoMemory>
    ensures { (read : Result RpcCall CallFault) → Finds rpc_call found.entry read → Grows out.old result out.new (found_text message.now read) }
{
    match found {
        Ok(call) => put_call(message.len(), &call, out),
        Err(CallFault::NotACall) => put_reply(message, out),
        Err(CallFault::RpcVersion { .. }) => put_refused(
            XdrError {
                place: 8,
                why: XdrWhy::NotEnum,
            },
            out,
        ),
        Err(CallFault::Bad { error, .. }) => put_refused(error, out),
    }
}

/// Appends the line of a record; at an error a part of it may stand in `out`.
fn put_line(message: &[u8], out: &mut Out) -> Result<(), NoMemory>
    ensures { Grows out.old result out.new (record_line message.now) }
{
    put_found(message, Call::read(message), out)?;
    out.raw(b"\n")
}

/// Appends the line that says what a record is, or nothing.
pub fn put_shown(message: &[u8], out: &mut Out) -> Result<(), NoMemory>
    ensures { Puts out.old result out.new (record_line message.now) }
{
    let mark = out.len();
    if put_line(message, out).is_err() {
        out.truncate(mark);
        return Err(NoMemory);
    }
    Ok(())
}

/// Says what the records are that lines spell.
#[derive(Drop)]
pub struct Shower {
    alloc: Global,
}

impl Shower {
    /// Takes no memory.
    pub fn new(alloc: Global) -> Shower {
        Shower { alloc }
    }

    /// Appends the line of the record that a line spells.
    fn show_line(&self, line: &[u8], text: &mut Out) -> Result<LineStep, NoMemory>
        ensures { ShowsLine text.old (line_shown line.now) result text.new }
    {
        if let None | Some(b'#') = line.first() {
            return Ok(LineStep::Done);
        }
        let Some(digits) = Digits::read(line) else {
            return Ok(LineStep::Outside);
        };
        let message = digits.decode(self.alloc)?;
        put_shown(&message, text)?;
        Ok(LineStep::Done)
    }
}

impl LineTask for Shower {
    ghost use Rattle.std.specs.Prelude.{refl};
    ghost use Rattle.record_show.specs.Show.{show_budget, show_task};

    ghost BUDGET = { show_budget };

    ghost State = { Unit {0} };

    ghost value = { λ shower. show_task };

    ghost fresh = { λ shower. ⊤ };

    ghost midway = { λ shower. ⊥ };

    ghost leads = { λ start now text. ⊤ };

    ghost steps = { λ shower. 0 };

    const BUDGET: usize = 67_108_864;

    fn count(&self) -> u64 {
        0
    }

    fn play(&mut self, line: &[u8], text: &mut Out) -> Result<LineStep, NoMemory> {
        self.show_line(line, text)
    }

    /// A line has one step.
    fn go_on(&mut self, _text: &mut Out) -> Result<LineStep, NoMemory> {
        Ok(LineStep::Done)
    }

    fn close(&mut self, _text: &mut Out) -> Result<(), NoMemory> {
        Ok(())
    }

    ghost ends = { λ shower number fresh. record { effect = refl; same = refl } };
}

/// Writes to `sink` what the records are that the lines of `source` spell, a line for each. An empty
/// line and one that begins with `#` add nothing.
pub fn show<S: Source, K: Sink>(alloc: Global, source: &mut S, sink: &mut K) -> RunEnd
    ensures told { Runs show_budget show_meaning (S.left source.old) (K.held sink.old) result (S.left source.new) (K.held sink.new) }
    ensures reads { S.faults source.new ≡ read_faults result (S.faults source.old) }
    ensures writes { K.faults sink.new ≡ write_faults result (K.faults sink.old) }
{
    let mut shower = Shower::new(alloc);
    run_lines(alloc, &mut shower, source, sink)
}
