//! The top calls: all that the program does, between a source and a sink, in threads or on one thread.
ghost use Rattle.std.specs.Prelude.{◌≡◌, ◌≢◌, ◌⊎◌, ◌<◌, ◌≤◌, ◌+◌, ℕ, List, [], length, IfOk, Some, None, Option as TheOption};
ghost use Rattle.std.specs.Io.KnownBytes.{Appends};
ghost use Rattle.mars_base.specs.Faults.{Rose};
ghost use Rattle.mars_io.specs.Sink.{AppendsPrefix};
ghost use Rattle.mars_io.specs.Whole.{TakesAtMost};
ghost use Rattle.mars_script.specs.declared.script.Input.{Input as TheInput};
ghost use Rattle.mars_script.specs.declared.words.Options.{Options as TheOptions};
ghost use Rattle.mars_script.specs.Words.{texts_of};
ghost use Rattle.mars_read.specs.ReadInput.{IsReadInput};
ghost use Rattle.marseille.specs.declared.status.Status.{Status as TheStatus};
ghost use Rattle.marseille.specs.Ran.{NamesSessions, IsRunAlone, IsRunInThreads};
ghost use Rattle.marseille.specs.Words.{AreRunAs, AreRun};
ghost use Rattle.marseille.specs.Top.{IsDueAfter, IsDue, GetsAll, GetsPart, status_of_run};

use crate::reading::{DueOutput, Reading, read_source};
use crate::running::{run_alone, run_together};
use crate::status::{Outcome, Status};
use crate::words::{Taken, take_threads, take_words};
use mars_io::{Gate, Put, Sink, Source, SourceError};
use mars_read::{TEXT_LIMIT, one_input};
use mars_script::{Options, SessionNumbers, words_say_one_thing};
use mars_session::Ran;
use mars_table::Entry;
use std::alloc::Global;
use std::sync::Wait;
use std::thread::Threads;

/// The text of a run is due, with the history of its table.
fn told(ran: Ran) -> DueOutput
    ensures status { result.status ≡ status_of_run ran.cut }
    ensures output { result.output.items ≡ ran.text.items }
    ensures history { result.history.items ≡ ran.history.items }
{
    let Ran { text, history, cut } = ran;
    DueOutput {
        status: if cut { Status::Memory } else { Status::Done },
        output: text,
        history,
    }
}

/// Reads the source to its end, and gives what is due of what it says: the run on one thread, or what is told without one.
fn due_alone<S: Source>(
    alloc: Global,
    options: Options,
    order: &Option<SessionNumbers>,
    source: &mut S,
) -> Result<DueOutput, SourceError>
    ensures due { IfOk result (IsDueAfter IsRunAlone options order.now (S.left source.old) (S.left source.new)) }
    ensures some { IfOk result (λ due. 0 < length due.output.items) }
    ensures taken { TakesAtMost (TEXT_LIMIT + 1) (S.left source.old) (S.left source.new) }
    ensures failed { result ≡ Err SourceError.Failed → Rose (S.faults source.old) (S.faults source.new) }
{
    match read_source(alloc, order, source)? {
        Reading::Told(due) => Ok(due),
        Reading::Runs(input) => Ok(told(run_alone(alloc, &input, options, order)?)),
    }
}

/// Reads the source to its end, and gives what is due of what it says: the run in threads, or what is told without one.
fn due_in_threads<S: Source, G: Gate, R: Threads + Wait + Sync>(
    rt: &R,
    alloc: Global,
    options: Options,
    source: &mut S,
    gate: &G,
) -> Result<DueOutput, SourceError>
    ensures due { IfOk result (IsDueAfter IsRunInThreads options None (S.left source.old) (S.left source.new)) }
    ensures some { IfOk result (λ due. 0 < length due.output.items) }
    ensures taken { TakesAtMost (TEXT_LIMIT + 1) (S.left source.old) (S.left source.new) }
    ensures failed { result ≡ Err SourceError.Failed → Rose (S.faults source.old) (S.faults source.new) }
{
    match read_source(alloc, &None, source)? {
        Reading::Told(due) => Ok(due),
        Reading::Runs(input) => Ok(told(run_together(rt, alloc, &input, options, gate)?)),
    }
}

/// Writes an output. The status is the one that is due, or that of a fault.
fn say<K: Sink>(sink: &mut K, output: &[u8], due: Status, history: Vec<Entry>) -> Outcome
    requires some { 0 < length output.now }
    requires due { due ≢ Status.Write }
    ensures all { result.status ≢ Status.Write → (result.status ≡ due) × Appends (K.got sink.old) (K.got sink.new) output.now }
    ensures fault { result.status ≡ Status.Write → Rose (K.faults sink.old) (K.faults sink.new)
        × AppendsPrefix (K.got sink.old) (K.got sink.new) output.now }
    ensures one { (result.status ≡ due) ⊎ (result.status ≡ Status.Write) }
    ensures history { result.history.items ≡ history.items }
{
    match sink.write(output) {
        Put::All => Outcome {
            status: due,
            history,
        },
        Put::Failed => Outcome {
            status: Status::Write,
            history,
        },
    }
}

/// The outcome where nothing is written.
fn nothing(alloc: Global, status: Status) -> Outcome
    ensures status { result.status ≡ status }
    ensures history { result.history.items ≡ [] }
{
    Outcome {
        status,
        history: Vec::new(alloc),
    }
}

/// Does all that the program does, on one thread: reads the source to its end, runs the input's sessions, one event after
/// the other, and writes their text to the sink. Where the words name no order, no events come first, and each session runs
/// to its end, by number. It waits for nobody. Takes time in proportion to the input, and what the sessions do.
pub fn marseille_alone<S: Source, K: Sink>(
    alloc: Global,
    words: &[String],
    source: &mut S,
    sink: &mut K,
) -> Outcome
    // Status 0: the words are run, the source was read to its end, its bytes are an input, and the sink got the text of the
    // schedule with events in the words' order first. The history is the schedule's.
    ensures done { result.status ≡ Status.Done →
        GetsAll (λ output. IsDue IsRunAlone (texts_of words.now) (S.left source.old) (S.left source.new) result.history.items output Status.Done) (K.got sink.old) (K.got sink.new) }
    // Status 1: the words are run, and the bytes read aren't an input; the sink got the line that says so.
    ensures refused { result.status ≡ Status.Refused →
        GetsAll (λ output. IsDue IsRunAlone (texts_of words.now) (S.left source.old) (S.left source.new) result.history.items output Status.Refused) (K.got sink.old) (K.got sink.new) }
    // Status 2: the words aren't accepted, or not built, or their order names a session that the input lacks; the sink got
    // the line that says so.
    ensures words { result.status ≡ Status.Words →
        GetsAll (λ output. IsDue IsRunAlone (texts_of words.now) (S.left source.old) (S.left source.new) result.history.items output Status.Words) (K.got sink.old) (K.got sink.new) }
    // Status 3: the sink got nothing, or the text of a run with a session that was cut, whose history is this.
    ensures memory { result.status ≡ Status.Memory → ((K.got sink.new ≡ K.got sink.old) × (result.history.items ≡ []))
        ⊎ GetsAll (λ output. IsDue IsRunAlone (texts_of words.now) (S.left source.old) (S.left source.new) result.history.items output Status.Memory) (K.got sink.old) (K.got sink.new) }
    // Status 4: the source had a fault in this call, and the sink got nothing.
    ensures read { result.status ≡ Status.Read → Rose (S.faults source.old) (S.faults source.new)
        × (K.got sink.new ≡ K.got sink.old) × (result.history.items ≡ []) }
    // Status 5: the sink had a fault in this call, and got a beginning of what was due with another status.
    ensures write { result.status ≡ Status.Write → Rose (K.faults sink.old) (K.faults sink.new)
        × GetsPart (λ output. (due : TheStatus) × IsDue IsRunAlone (texts_of words.now) (S.left source.old) (S.left source.new) result.history.items output due) (K.got sink.old) (K.got sink.new) }
    // Where the words aren't run, the status is 2, or 5 where the sink fails, or 3 where there is no memory.
    ensures words_alone { (AreRun (texts_of words.now) → ⊥) →
        (result.status ≡ Status.Words) ⊎ ((result.status ≡ Status.Memory) ⊎ (result.status ≡ Status.Write)) }
    // Where the words aren't run, the source is as it was.
    ensures untouched { (AreRun (texts_of words.now) → ⊥) → source.new ≡ source.old }
    // No more than the limit and one byte was taken from the source, whatever the status.
    ensures taken { TakesAtMost (TEXT_LIMIT + 1) (S.left source.old) (S.left source.new) }
    // Where the words are run, the source holds an input whose sessions the order names, and neither source nor sink had a
    // fault, the status is 0, or 3 where there is no memory.
    ensures complete { (options : TheOptions) (order : TheOption (List ℕ)) (bytes : List ℕ) (input : TheInput) → AreRunAs (texts_of words.now) options order →
        S.left source.old ≡ Some bytes → IsReadInput bytes input → NamesSessions order input →
        (Rose (S.faults source.old) (S.faults source.new) → ⊥) → (Rose (K.faults sink.old) (K.faults sink.new) → ⊥) →
        (result.status ≡ Status.Done) ⊎ (result.status ≡ Status.Memory) }
{
    words_say_one_thing();
    one_input();
    match take_words(alloc, words) {
        Ok(Taken::Run(options, order)) => match due_alone(alloc, options, &order, source) {
            Ok(
                DueOutput {
                    status,
                    output,
                    history,
                },
            ) => say(sink, &output, status, history),
            Err(SourceError::NoMemory) => nothing(alloc, Status::Memory),
            Err(SourceError::Failed) => nothing(alloc, Status::Read),
        },
        Ok(Taken::Unbuilt) => say(sink, b"words unbuilt\n", Status::Words, Vec::new(alloc)),
        Ok(Taken::Refused) => say(sink, b"words refused\n", Status::Words, Vec::new(alloc)),
        Err(_) => nothing(alloc, Status::Memory),
    }
}

/// Does all that the program does: reads the source to its end, runs the input's sessions, each in a thread of its own over
/// one table, and writes their text to the sink. The gate comes before and after each table call of a session. Where the
/// words name an order, the sessions run on this thread, as by `marseille_alone`.
///
/// It may wait for ever, as each table call in a thread may; what is promised holds where it returns. Takes time in
/// proportion to the input, and what the sessions do.
pub fn marseille<S: Source, K: Sink, G: Gate, R: Threads + Wait + Sync>(
    rt: &R,
    alloc: Global,
    words: &[String],
    source: &mut S,
    sink: &mut K,
    gate: &G,
) -> Outcome
    // Status 0: the words are run, the source was read to its end, its bytes are an input, and the sink got the text of the
    // run. Each session wrote there what its script alone gives, with table replies from this history, which is legal, and has
    // each session's table calls once and in order; live numbers are equal exactly where their trees agree along every path,
    // and sweeps keep exactly what is reached. With an order the run is that of the schedule.
    ensures done { result.status ≡ Status.Done →
        GetsAll (λ output. IsDue IsRunInThreads (texts_of words.now) (S.left source.old) (S.left source.new) result.history.items output Status.Done) (K.got sink.old) (K.got sink.new) }
    // Status 1: the words are run, and the bytes read aren't an input; the sink got the line that says so.
    ensures refused { result.status ≡ Status.Refused →
        GetsAll (λ output. IsDue IsRunInThreads (texts_of words.now) (S.left source.old) (S.left source.new) result.history.items output Status.Refused) (K.got sink.old) (K.got sink.new) }
    // Status 2: the words aren't accepted, or not built, or their order names a session that the input lacks; the sink got
    // the line that says so.
    ensures words { result.status ≡ Status.Words →
        GetsAll (λ output. IsDue IsRunInThreads (texts_of words.now) (S.left source.old) (S.left source.new) result.history.items output Status.Words) (K.got sink.old) (K.got sink.new) }
    // Status 3: the sink got nothing, or the text of a run with a session that was cut, whose history is this.
    ensures memory { result.status ≡ Status.Memory → ((K.got sink.new ≡ K.got sink.old) × (result.history.items ≡ []))
        ⊎ GetsAll (λ output. IsDue IsRunInThreads (texts_of words.now) (S.left source.old) (S.left source.new) result.history.items output Status.Memory) (K.got sink.old) (K.got sink.new) }
    // Status 4: the source had a fault in this call, and the sink got nothing.
    ensures read { result.status ≡ Status.Read → Rose (S.faults source.old) (S.faults source.new)
        × (K.got sink.new ≡ K.got sink.old) × (result.history.items ≡ []) }
    // Status 5: the sink had a fault in this call, and got a beginning of what was due with another status.
    ensures write { result.status ≡ Status.Write → Rose (K.faults sink.old) (K.faults sink.new)
        × GetsPart (λ output. (due : TheStatus) × IsDue IsRunInThreads (texts_of words.now) (S.left source.old) (S.left source.new) result.history.items output due) (K.got sink.old) (K.got sink.new) }
    // Where the words aren't run, the status is 2, or 5 where the sink fails, or 3 where there is no memory.
    ensures words_alone { (AreRun (texts_of words.now) → ⊥) →
        (result.status ≡ Status.Words) ⊎ ((result.status ≡ Status.Memory) ⊎ (result.status ≡ Status.Write)) }
    // Where the words aren't run, the source is as it was.
    ensures untouched { (AreRun (texts_of words.now) → ⊥) → source.new ≡ source.old }
    // No more than the limit and one byte was taken from the source, whatever the status.
    ensures taken { TakesAtMost (TEXT_LIMIT + 1) (S.left source.old) (S.left source.new) }
    // Where the words are run, the source holds an input whose sessions the order names, and neither source nor sink had a
    // fault, the status is 0, or 3 where there is no memory.
    ensures complete { (options : TheOptions) (order : TheOption (List ℕ)) (bytes : List ℕ) (input : TheInput) → AreRunAs (texts_of words.now) options order →
        S.left source.old ≡ Some bytes → IsReadInput bytes input → NamesSessions order input →
        (Rose (S.faults source.old) (S.faults source.new) → ⊥) → (Rose (K.faults sink.old) (K.faults sink.new) → ⊥) →
        (result.status ≡ Status.Done) ⊎ (result.status ≡ Status.Memory) }
{
    words_say_one_thing();
    one_input();
    match take_threads(alloc, words) {
        Ok(Some(options)) => match due_in_threads(rt, alloc, options, source, gate) {
            Ok(
                DueOutput {
                    status,
                    output,
                    history,
                },
            ) => say(sink, &output, status, history),
            Err(SourceError::NoMemory) => nothing(alloc, Status::Memory),
            Err(SourceError::Failed) => nothing(alloc, Status::Read),
        },
        Ok(None) => marseille_alone(alloc, words, source, sink),
        Err(_) => nothing(alloc, Status::Memory),
    }
}
