// The top call.

ghost use Rattle.std.specs.Prelude.{◌≤◌};
ghost use Rattle.rxc_program.specs.Commands.{behaviour};
ghost use Rattle.rxc_program.specs.Endings.{change, CommandRun};
ghost use Rattle.rxc_program.specs.Logged.{IsLogged};
ghost use Rattle.rxc_program.specs.Naming.{HasLeafCount};
ghost use Rattle.rxc_program.specs.Promises.{CompilesAccepted, JudgesInput, ReportsWords, RunsCommand, ShowsLanguages};

use crate::demo::demo;
use crate::extract::extract;
use crate::laws::{inputs_are_judged, networks_show_their_languages};
use crate::log::told;
use crate::net::net;
use crate::pla::pla;
use crate::report::report;
use crate::sim::sim;
use crate::status::Status;
use crate::tree::tree;
use crate::words::{Command, RxWord, named_command};
use rx_io::{Sink, Source};
use rx_syntax::laws::texts_are_accepted_or_refused;
use std::alloc::Global;

/// Runs the command that the words name, on the input that `src` gives, and writes its output to `out`. Where the run is
/// not done, `log` takes one line that says why. The status is that of `run`, which has no log.
pub fn rxc<S: Source, O: Sink, L: Sink>(
    alloc: Global,
    words: &[RxWord],
    src: &mut S,
    out: &mut O,
    log: &mut L,
) -> Status
    // For each accepted specification a file is written that recognises its languages, and `sim` shows them.
    ensures compiles { CompilesAccepted words.now (change S.left S.faults src.old src.new) (change O.held O.faults out.old out.new) result }
    ensures languages { ShowsLanguages words.now (change S.left S.faults src.old src.new) (change O.held O.faults out.old out.new) result }

    // How each run ends, what it read and wrote, and why.
    ensures run { RunsCommand words.now (change S.left S.faults src.old src.new) (change O.held O.faults out.old out.new) result }
    ensures known { JudgesInput words.now (change S.left S.faults src.old src.new) (change O.held O.faults out.old out.new) result }
    ensures usage { ReportsWords words.now (change S.left S.faults src.old src.new) (change O.held O.faults out.old out.new) result }

    // The log.
    ensures log { IsLogged (change L.held L.faults log.old log.new) result }
    ensures log_count { L.faults log.old ≤ L.faults log.new }
{
    let status = run(alloc, words, src, out);
    told(log, status)
}

/// The run, without the log.
fn run<S: Source, O: Sink>(alloc: Global, words: &[RxWord], src: &mut S, out: &mut O) -> Status
    ensures compiles { CompilesAccepted words.now (change S.left S.faults src.old src.new) (change O.held O.faults out.old out.new) result }
    ensures languages { ShowsLanguages words.now (change S.left S.faults src.old src.new) (change O.held O.faults out.old out.new) result }
    ensures run { RunsCommand words.now (change S.left S.faults src.old src.new) (change O.held O.faults out.old out.new) result }
    ensures known { JudgesInput words.now (change S.left S.faults src.old src.new) (change O.held O.faults out.old out.new) result }
    ensures usage { ReportsWords words.now (change S.left S.faults src.old src.new) (change O.held O.faults out.old out.new) result }
{
    inputs_are_judged();
    networks_show_their_languages();
    texts_are_accepted_or_refused();
    match named_command(words) {
        Ok(command) => serve(alloc, command, src, out),
        Err(word) => Status::Usage { word },
    }
}

/// Serves the command.
fn serve<S: Source, O: Sink>(alloc: Global, command: Command, src: &mut S, out: &mut O) -> Status
    requires { HasLeafCount command }
    ensures { CommandRun (behaviour command) (change S.left S.faults src.old src.new) (change O.held O.faults out.old out.new) result }
{
    match command {
        Command::Net => net(alloc, src, out),
        Command::Pla => pla(alloc, src, out),
        Command::Tree => tree(alloc, src, out),
        Command::Extract => extract(alloc, src, out),
        Command::Sim => sim(alloc, src, out),
        Command::Report => report(alloc, src, out),
        Command::Demo { start, leaves } => demo(alloc, start, leaves, out),
    }
}
