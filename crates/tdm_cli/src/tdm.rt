//! The top call.
ghost use Rattle.std.specs.Prelude.{◌≡◌, ◌≢◌, map, string_bytes, Some};
ghost use Rattle.tdm_desk.specs.Files.{Files};
ghost use Rattle.tdm_desk.specs.Seen.{files_of};
ghost use Rattle.tdm_desk.specs.Counts.{CountsFaults, WritingFailed};
ghost use Rattle.command_run.specs.Ends.{RunEnds};
ghost use Rattle.tdm_cli.specs.Words.{IsCommand};
ghost use Rattle.tdm_cli.specs.Kinds.{faults};
ghost use Rattle.tdm_cli.specs.Request.{Request, Asks, request_of, inputs_of, outputs_of};
ghost use Rattle.tdm_cli.specs.Outcomes.{CallsFor};
ghost use Rattle.tdm_cli.specs.Ended.{IsAsCalled, TouchesOnly, IsFinished, TellsFaults, ReportsReadFault};
ghost use Rattle.tdm_cli.specs.Promises.{IsWorth, BoundsHold};
ghost use Rattle.tdm_cli.specs.declared.status.Status.{Status};
ghost use Rattle.tdm_cli.specs.declared.status.Status.TheVariants.{Ok, Usage, ReadFault, WriteFault};

use crate::command::{Command, parse};
use crate::deciding::decide;
use crate::status::Status;
use command_run::conclude;
use std::alloc::Global;
use tdm_desk::Desk;

/// The words that name the outputs of a command, in order.
fn output_names<'a>(command: &Option<Command<'_>>, words: &'a [String]) -> &'a [String]
    requires { Asks (map string_bytes words.now) (request_of command.now) }
    ensures { map string_bytes result.now ≡ outputs_of (request_of command.now) }
{
    match command {
        Some(Command::Route { .. }) => &words[2..4],
        Some(Command::Gen { .. }) => &words[4..],
        Some(Command::Demo { .. }) => &words[4..],
        Some(Command::Eval { .. }) => &words[..0],
        Some(Command::Check { .. }) => &words[..0],
        None => &words[..0],
    }
}

/// Does what the words ask for, and says a report.
fn run_words<D: Desk>(alloc: Global, desk: &mut D, words: &[String]) -> Status
    ensures ran { (request : Request) × Asks (map string_bytes words.now) request
        × RunEnds D.counts D.steady D.seen faults (inputs_of request) (outputs_of request) (CallsFor request)
        desk.old desk.new result }
    ensures counted { CountsFaults D.counts D.steady desk.old desk.new }
{
    let command = parse(words);
    let outputs = output_names(&command, words);
    let decision = decide(alloc, desk, &command);
    conclude(alloc, desk, decision, outputs)
}

/// Does what the words of a command line ask for, without the program's own name, over any desk, says a
/// report, and answers how that ended.
///
/// The headline is what `answers`, `worth` and `bounds_hold` say together of `route`, over a desk that tells
/// its files. A board that is accepted, whose nets can be joined and whose baseline has few enough uses, is
/// answered Ok or want of memory where neither reading nor writing fails. At Ok one file holds a legal
/// solution and another a valid certificate, with the value and the bound that were said; and no legal
/// solution, of any size and by whomever, has a value below that bound, nor below the bound of any valid
/// certificate whose text is accepted for that of the board.
pub fn tdm<D: Desk>(alloc: Global, desk: &mut D, words: &[String]) -> Status
    // The headline. The answer is the status that the files call for, unless a fault of the outside or want
    // of memory comes in. At Ok routed solutions are legal and tight, certificates valid, verdicts right, and
    // what was said is true. No legal solution has a value below the bound of a valid certificate whose text
    // is accepted for that of its board, whatever is run.
    ensures answers { (request : Request) (files : Files) → Asks (map string_bytes words.now) request
        → files_of (D.seen desk.old) ≡ Some files
        → IsAsCalled D.counts D.steady request files desk.old desk.new result }
    ensures worth { (request : Request) (files : Files) → Asks (map string_bytes words.now) request
        → files_of (D.seen desk.old) ≡ Some files
        → IsWorth request files (D.seen desk.old) (D.seen desk.new) result }
    ensures bounds_hold { BoundsHold }

    // How a run ends, whatever the status: an outcome that the files call for is put out, whole or in a first
    // part, or memory was wanting. An input behind one that decides is as it was. In a first part each text
    // but the last that was begun is whole, and nothing of the report is said before all texts are. Words
    // that are no command are refused, and no others.
    ensures ends { (request : Request) → Asks (map string_bytes words.now) request
        → RunEnds D.counts D.steady D.seen faults (inputs_of request) (outputs_of request) (CallsFor request)
        desk.old desk.new result }
    ensures usage { result ≡ Usage → ¬ IsCommand (map string_bytes words.now) }

    // All inputs and outputs but the command's own are as they were, and under a refusal so are all outputs
    // and all files. At Ok each input was read to its end, and each output is closed.
    ensures slots { (request : Request) → Asks (map string_bytes words.now) request
        → TouchesOnly request (D.seen desk.old) (D.seen desk.new) result }
    ensures finished { (request : Request) → Asks (map string_bytes words.now) request → result ≡ Ok
        → IsFinished request (D.seen desk.new) }

    // Faults of the outside are counted by the desk, each once. A read fault is reported of the input whose
    // count rose, a write fault comes only where that of writing did; where a count rose, the answer tells
    // it; over a steady desk there are no faults.
    ensures read_fault { (request : Request) → Asks (map string_bytes words.now) request → result ≡ ReadFault
        → ReportsReadFault D.counts D.steady D.seen request desk.old desk.new }
    ensures write_fault { result ≡ WriteFault → WritingFailed D.counts D.steady desk.old desk.new }
    ensures told { TellsFaults D.counts desk.old desk.new result }
    ensures counted { CountsFaults D.counts D.steady desk.old desk.new }
    ensures steady { D.steady desk.old → (result ≢ ReadFault) × (result ≢ WriteFault) }
{
    run_words(alloc, desk, words)
}
