//! The top call.

ghost use Rattle.std.specs.Prelude.{◌≡◌, ◌++◌, map, OnOk};
ghost use Rattle.std.specs.String.{string_bytes};
ghost use Rattle.rpc_record.specs.Stream.{counted};
ghost use Rattle.line_runs.specs.Runs.{Runs, read_faults, write_faults};
ghost use Rattle.line_runs.specs.Writing.{WritesText};
ghost use Rattle.command_words.specs.Commands.{IsInGrammar, command_value};
ghost use Rattle.store_disk.specs.Disks.{both_faults};
ghost use Rattle.ff_node.specs.Serve.{beside};
ghost use Rattle.line_runs.specs.declared.end.RunEnd.TheVariants as run_end;
ghost use Rattle.ff_run.specs.declared.program.ProgramEnd.{ProgramEnd};
ghost use Rattle.ff_run.specs.declared.program.ProgramEnd.TheVariants.{Ended};
ghost use Rattle.ff_run.specs.Node.{IsShortName, observed, task_command};
ghost use Rattle.ff_replay.specs.Script.{script_budget, script_meaning};
ghost use Rattle.script_laws.specs.ScriptLaws.{LawsOfScripts, PlaysLawfully, PrintsLawfully};
ghost use Rattle.ff_run.specs.Run.{Performs, PerformsCommand, Reports, disk_faults_after, end_of_writing, failure_note, link_faults_after, note_of, sink_faults_after, source_faults_after, status_of, with_number};

use crate::serving::{Task, serve};
use cluster_model::FailCause;
use command_words::{Command, asked};
use ff_node::NodeEnd;
use ff_replay::replay;
use ff_xdr::{NoMemory, Out};
use journal_print::{Mode, put_numbered};
use line_runs::{RunEnd, write_all};
use node_link::{Clock, Link};
use record_show::show;
use rpc_record::{Failed, Sink, Source};
use script_gen::generate;
use script_laws::script_laws;
use std::alloc::Global;
use store_disk::Disk;

/// How the program ends.
#[derive(Clone, Copy, Debug, PartialEq, Eq)]
pub enum ProgramEnd {
    /// Nothing: its words are no command.
    Usage,
    /// It ran a command, which ended so before any node ran.
    Ended(RunEnd),
    /// A node ran, and ended so.
    Served(NodeEnd),
}

impl ProgramEnd {
    /// The status that the program ends with.
    pub fn status(self) -> u8
        ensures { result ≡ status_of self }
    {
        match self {
            ProgramEnd::Usage => 2,
            ProgramEnd::Ended(RunEnd::Done) => 0,
            ProgramEnd::Ended(RunEnd::BadLine(_)) => 3,
            ProgramEnd::Ended(RunEnd::ReadFault) => 4,
            ProgramEnd::Ended(RunEnd::WriteFault) => 5,
            ProgramEnd::Ended(RunEnd::NoMemory) => 8,
            ProgramEnd::Ended(RunEnd::Limit(_)) => 9,
            ProgramEnd::Served(NodeEnd::Done) => 0,
            ProgramEnd::Served(NodeEnd::ReadFault) => 4,
            ProgramEnd::Served(NodeEnd::WriteFault) => 5,
            ProgramEnd::Served(NodeEnd::DiskFault) => 6,
            ProgramEnd::Served(NodeEnd::BadLog(_)) => 6,
            ProgramEnd::Served(NodeEnd::BootsSpent) => 6,
            ProgramEnd::Served(NodeEnd::LinkFault) => 7,
            ProgramEnd::Served(NodeEnd::NoMemory) => 8,
            ProgramEnd::Served(NodeEnd::Failed(_)) => 10,
            ProgramEnd::Served(NodeEnd::Turns) => 11,
        }
    }

    /// Writes the line that says it, and nothing where all went well.
    fn tell<E: Sink>(self, alloc: Global, notes: &mut E) -> Result<(), Failed>
        ensures told { WritesText (E.held notes.old) (note_of self) result (E.held notes.new) }
        ensures faults { E.faults notes.new ≡ counted result (E.faults notes.old) }
    {
        match self {
            ProgramEnd::Usage => write_all(notes, b"usage\n"),
            ProgramEnd::Ended(RunEnd::Done) => Ok(()),
            ProgramEnd::Ended(RunEnd::BadLine(number)) => tell_number(
                alloc, b"line ", number, notes,
            ),
            ProgramEnd::Ended(RunEnd::ReadFault) => write_all(notes, b"read fault\n"),
            ProgramEnd::Ended(RunEnd::WriteFault) => write_all(notes, b"write fault\n"),
            ProgramEnd::Ended(RunEnd::NoMemory) => write_all(notes, b"no memory\n"),
            ProgramEnd::Ended(RunEnd::Limit(count)) => tell_number(alloc, b"limit ", count, notes),
            ProgramEnd::Served(NodeEnd::Done) => Ok(()),
            ProgramEnd::Served(NodeEnd::ReadFault) => write_all(notes, b"read fault\n"),
            ProgramEnd::Served(NodeEnd::WriteFault) => write_all(notes, b"write fault\n"),
            ProgramEnd::Served(NodeEnd::DiskFault) => write_all(notes, b"disk fault\n"),
            ProgramEnd::Served(NodeEnd::BadLog(place)) => tell_number(
                alloc,
                b"bad log ",
                place,
                notes,
            ),
            ProgramEnd::Served(NodeEnd::BootsSpent) => write_all(notes, b"boots spent\n"),
            ProgramEnd::Served(NodeEnd::LinkFault) => write_all(notes, b"link fault\n"),
            ProgramEnd::Served(NodeEnd::NoMemory) => write_all(notes, b"no memory\n"),
            ProgramEnd::Served(NodeEnd::Failed(cause)) => tell_failure(alloc, cause, notes),
            ProgramEnd::Served(NodeEnd::Turns) => write_all(notes, b"turns\n"),
        }
    }
}

/// Writes a line of a word and a number. Nothing is written where there is no memory for the line.
fn tell_number<E: Sink>(
    alloc: Global,
    word: &[u8],
    number: u64,
    notes: &mut E,
) -> Result<(), Failed>
    ensures told { WritesText (E.held notes.old) (with_number word.now number) result (E.held notes.new) }
    ensures faults { E.faults notes.new ≡ counted result (E.faults notes.old) }
{
    let mut line = Out::new(alloc);
    if put_note(&mut line, word, number).is_err() {
        return Err(Failed::NoMemory);
    }
    write_all(notes, line.bytes())
}

/// Appends a line of a word and a number.
fn put_note(line: &mut Out, word: &[u8], number: u64) -> Result<(), NoMemory>
    ensures { OnOk result (line.new ≡ line.old ++ with_number word.now number) }
{
    put_numbered(word, number, line)?;
    line.raw(b"\n")
}

/// Writes the line of a failure.
fn tell_failure<E: Sink>(alloc: Global, cause: FailCause, notes: &mut E) -> Result<(), Failed>
    ensures told { WritesText (E.held notes.old) (failure_note cause) result (E.held notes.new) }
    ensures faults { E.faults notes.new ≡ counted result (E.faults notes.old) }
{
    match cause {
        FailCause::Revoked => write_all(notes, b"failed revoked\n"),
        FailCause::AllMirrors => write_all(notes, b"failed allmirrors\n"),
        FailCause::Refused(status) => {
            tell_number(alloc, b"failed refused ", u64::from(status), notes)
        }
    }
}

/// How writing a text ends a command.
fn written(writing: Result<(), Failed>) -> RunEnd
    ensures { result ≡ end_of_writing writing }
{
    match writing {
        Ok(()) => RunEnd::Done,
        Err(Failed::Fault) => RunEnd::WriteFault,
        Err(Failed::NoMemory) => RunEnd::NoMemory,
    }
}

/// Runs a node for a task.
fn run_task<S: Source, K: Sink, D: Disk, L: Link, C: Clock>(
    alloc: Global,
    task: Task<'_>,
    source: &mut S,
    sink: &mut K,
    disk: &mut D,
    spare: &mut D,
    link: &mut L,
    clock: &mut C,
) -> ProgramEnd
    requires { IsShortName task }
    ensures told { PerformsCommand (task_command task.entry) result (observed (S.left source.old) (D.told disk.old) (D.told spare.old) (L.opened link.old) (beside (L.coming link.old) (L.sent link.old) (C.coming clock.old) (C.moment clock.old) (K.held sink.old))) (observed (S.left source.new) (D.told disk.new) (D.told spare.new) (L.opened link.new) (beside (L.coming link.new) (L.sent link.new) (C.coming clock.new) (C.moment clock.new) (K.held sink.new))) }
    ensures reads { S.faults source.new ≡ source_faults_after result (S.faults source.old) }
    ensures writes { K.faults sink.new ≡ sink_faults_after result (K.faults sink.old) }
    ensures faults { L.faults link.new ≡ link_faults_after result (L.faults link.old) }
    ensures keeps { both_faults (D.faults disk.new) (D.faults spare.new) ≡ disk_faults_after result (both_faults (D.faults disk.old) (D.faults spare.old)) }
{
    match serve(alloc, task, source, sink, disk, spare, link, clock) {
        Ok(end) => ProgramEnd::Served(end),
        Err(end) => ProgramEnd::Ended(end),
    }
}

/// Replays the script of the source. The journal of its lines obeys all laws; and whatever ended the run, what was
/// printed is a beginning of the text of a journal that does.
fn replay_lawfully<S: Source, K: Sink>(
    alloc: Global,
    mode: Mode,
    source: &mut S,
    sink: &mut K,
) -> RunEnd
    ensures told { Runs script_budget (script_meaning mode) (S.left source.old) (K.held sink.old) result (S.left source.new) (K.held sink.new) }
    ensures lawful { PlaysLawfully (S.left source.old) result }
    ensures prints { PrintsLawfully mode (K.held sink.old) (K.held sink.new) }
    ensures reads { S.faults source.new ≡ read_faults result (S.faults source.old) }
    ensures writes { K.faults sink.new ≡ write_faults result (K.faults sink.old) }
{
    // (what the journals of scripts obey has no code: this brings its proof)
    script_laws();
    replay(alloc, mode, source, sink)
}

/// Does what a command asks for.
fn perform<S: Source, K: Sink, D: Disk, L: Link, C: Clock>(
    alloc: Global,
    command: Command<'_>,
    source: &mut S,
    sink: &mut K,
    disk: &mut D,
    spare: &mut D,
    link: &mut L,
    clock: &mut C,
) -> ProgramEnd
    requires { IsInGrammar (command_value command) }
    ensures told { PerformsCommand (command_value command.entry) result (observed (S.left source.old) (D.told disk.old) (D.told spare.old) (L.opened link.old) (beside (L.coming link.old) (L.sent link.old) (C.coming clock.old) (C.moment clock.old) (K.held sink.old))) (observed (S.left source.new) (D.told disk.new) (D.told spare.new) (L.opened link.new) (beside (L.coming link.new) (L.sent link.new) (C.coming clock.new) (C.moment clock.new) (K.held sink.new))) }
    ensures reads { S.faults source.new ≡ source_faults_after result (S.faults source.old) }
    ensures writes { K.faults sink.new ≡ sink_faults_after result (K.faults sink.old) }
    ensures faults { L.faults link.new ≡ link_faults_after result (L.faults link.old) }
    ensures keeps { both_faults (D.faults disk.new) (D.faults spare.new) ≡ disk_faults_after result (both_faults (D.faults disk.old) (D.faults spare.old)) }
{
    match command {
        Command::Replay(mode) => ProgramEnd::Ended(replay_lawfully(alloc, mode, source, sink)),
        Command::Gen(number) => ProgramEnd::Ended(written(generate(alloc, number, sink))),
        Command::Show => ProgramEnd::Ended(show(alloc, source, sink)),
        Command::Ds => run_task(alloc, Task::Ds, source, sink, disk, spare, link, clock),
        Command::Mds => run_task(alloc, Task::Mds, source, sink, disk, spare, link, clock),
        Command::Put(name) => run_task(
            alloc,
            Task::Put(name),
            source,
            sink,
            disk,
            spare,
            link,
            clock,
        ),
        Command::Get(name) => run_task(
            alloc,
            Task::Get(name),
            source,
            sink,
            disk,
            spare,
            link,
            clock,
        ),
    }
}

/// Does what the words ask for.
fn do_words<S: Source, K: Sink, D: Disk, L: Link, C: Clock>(
    alloc: Global,
    words: &[String],
    source: &mut S,
    sink: &mut K,
    disk: &mut D,
    spare: &mut D,
    link: &mut L,
    clock: &mut C,
) -> ProgramEnd
    ensures told { Performs (map string_bytes words.now) result (observed (S.left source.old) (D.told disk.old) (D.told spare.old) (L.opened link.old) (beside (L.coming link.old) (L.sent link.old) (C.coming clock.old) (C.moment clock.old) (K.held sink.old))) (observed (S.left source.new) (D.told disk.new) (D.told spare.new) (L.opened link.new) (beside (L.coming link.new) (L.sent link.new) (C.coming clock.new) (C.moment clock.new) (K.held sink.new))) }
    ensures reads { S.faults source.new ≡ source_faults_after result (S.faults source.old) }
    ensures writes { K.faults sink.new ≡ sink_faults_after result (K.faults sink.old) }
    ensures faults { L.faults link.new ≡ link_faults_after result (L.faults link.old) }
    ensures keeps { both_faults (D.faults disk.new) (D.faults spare.new) ≡ disk_faults_after result (both_faults (D.faults disk.old) (D.faults spare.old)) }
{
    match asked(alloc, words) {
        Ok(Some(command)) => perform(alloc, command, source, sink, disk, spare, link, clock),
        Ok(None) => ProgramEnd::Usage,
        Err(NoMemory) => ProgramEnd::Ended(RunEnd::NoMemory),
    }
}

/// Writes the line that says how the program ends, and answers its status.
fn report<E: Sink>(alloc: Global, end: ProgramEnd, notes: &mut E) -> u8
    ensures { Reports end result (E.held notes.old) (E.held notes.new) (E.faults notes.old) (E.faults notes.new) }
{
    match end.tell(alloc, notes) {
        Ok(()) => end.status(),
        Err(Failed::Fault) => 5,
        Err(Failed::NoMemory) => 8,
    }
}

/// Ends the program where memory was wanted for its words, so that nothing was done: says `no memory`, and answers its
/// status, which is 8, or 5 where the notes failed.
pub fn end_without_words<E: Sink>(alloc: Global, notes: &mut E) -> u8
    ensures { Reports (Ended run_end.NoMemory) result (E.held notes.old) (E.held notes.new) (E.faults notes.old) (E.faults notes.new) }
{
    report(alloc, ProgramEnd::Ended(RunEnd::NoMemory), notes)
}

/// Runs the program: `words` are those behind its name, `source` its standard input, `sink` its
/// standard output, `notes` its standard error, `disk` and `spare` what have the log of a data server, `link` what joins it to other
/// nodes and `clock` its clock, in seconds. The status is 0 where the source was read to its end, all was written, or all turns were served or the
/// link closed; 2 where the words are no command, 3 where a line is outside the grammar, 4 where the source failed, 5
/// where the sink or the notes did, 6 where a disk did, the log is bad or has the last boot, 7 where the link did, 8 where memory was wanted, 9 where the source is longer
/// than 64 MiB or a journal would pass a limit, 10 where a request of `put` or `get` was not done, and 11 where their
/// turns were over, or the link was closed, before all was answered.
pub fn run<S: Source, K: Sink, E: Sink, D: Disk, L: Link, C: Clock>(
    alloc: Global,
    words: &[String],
    source: &mut S,
    sink: &mut K,
    notes: &mut E,
    disk: &mut D,
    spare: &mut D,
    link: &mut L,
    clock: &mut C,
) -> u8
    ensures does { (end : ProgramEnd)
        × Performs (map string_bytes words.now) end (observed (S.left source.old) (D.told disk.old) (D.told spare.old) (L.opened link.old) (beside (L.coming link.old) (L.sent link.old) (C.coming clock.old) (C.moment clock.old) (K.held sink.old))) (observed (S.left source.new) (D.told disk.new) (D.told spare.new) (L.opened link.new) (beside (L.coming link.new) (L.sent link.new) (C.coming clock.new) (C.moment clock.new) (K.held sink.new)))
        × (S.faults source.new ≡ source_faults_after end (S.faults source.old))
        × (K.faults sink.new ≡ sink_faults_after end (K.faults sink.old))
        × (both_faults (D.faults disk.new) (D.faults spare.new) ≡ disk_faults_after end (both_faults (D.faults disk.old) (D.faults spare.old)))
        × (L.faults link.new ≡ link_faults_after end (L.faults link.old))
        × Reports end result (E.held notes.old) (E.held notes.new) (E.faults notes.old) (E.faults notes.new) }
    ensures laws { LawsOfScripts }
{
    // (what the journals of scripts obey has no code: this brings its proof)
    script_laws();
    let end = do_words(alloc, words, source, sink, disk, spare, link, clock);
    report(alloc, end, notes)
}
