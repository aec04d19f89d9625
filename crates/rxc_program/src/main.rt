//! `rxc`, a silicon compiler for regular expressions: the top call, and the program round it.
#![tactic(auto)]

ghost use Rattle.std.specs.Prelude.{◌≡◌};
ghost use Rattle.std.specs.Process.{exit_status};
ghost use Rattle.rxc_program.specs.Endings.{change};
ghost use Rattle.rxc_program.specs.Logged.{IsLogged};
ghost use Rattle.rxc_program.specs.Promises.{RunsCommand};
ghost use Rattle.rxc_program.specs.StatusText.{exit_number};

mod demo;
mod demo_words;
mod drawn;
mod extract;
mod figures;
mod input;
mod laws;
mod log;
mod net;
mod pla;
mod plain_run;
mod report;
mod sim;
mod status;
mod top;
mod tree;
mod words;

pub use laws::{
    inputs_are_judged, networks_show_their_languages, sim_has_an_output, sim_has_one_output,
};
pub use status::{Code, Status};
pub use top::rxc;
pub use words::RxWord;

#[cfg(test)]
mod extract_rows;
#[cfg(test)]
mod pla_rows;
#[cfg(test)]
mod process_rows;
#[cfg(test)]
mod report_rows;
#[cfg(test)]
mod rows;
#[cfg(test)]
mod sim_layout_rows;
#[cfg(test)]
mod sim_rows;
#[cfg(test)]
mod tests;
#[cfg(test)]
mod tree_rows;

use rx_io::{Sink, Source, StdSink, StdSource};
use std::alloc::{AllocError, Global};
use std::env;
use std::io::ErrorKind;
use std::process::ExitCode;

// The exit number where there is no memory for the words of the command.
const NO_MEMORY: u8 = 5;

// The words of the command line, without the program's own name. Where the system gives a word that is no text, one empty
// word stands for all of them.
fn command_words(rt: &HostRuntime) -> Result<Vec<RxWord>, AllocError> {
    let mut words = Vec::new(rt.alloc());
    match env::args(rt) {
        Ok(args) => {
            for arg in args.skip(1) {
                words.push(RxWord::new(arg.into_bytes()))?;
            }
        }
        Err(error) if error.kind() == ErrorKind::OutOfMemory => return Err(AllocError),
        Err(_) => words.push(RxWord::new(Vec::new(rt.alloc())))?,
    }
    Ok(words)
}

// Runs the words, and gives the number with which the process ends.
fn exit_code<S: Source, O: Sink, L: Sink>(
    alloc: Global,
    words: &[RxWord],
    src: &mut S,
    out: &mut O,
    log: &mut L,
) -> ExitCode
    ensures { (status : Status) × (exit_status result ≡ exit_number status)
        × RunsCommand words.now (change S.left S.faults src.old src.new) (change O.held O.faults out.old out.new) status
        × IsLogged (change L.held L.faults log.old log.new) status }
{
    let status = rxc(alloc, words, src, out, log);
    ExitCode::from(status.exit())
}

fn main(rt: HostRuntime) -> ExitCode {
    let Ok(words) = command_words(&rt) else {
        return ExitCode::from(NO_MEMORY);
    };
    let mut src = StdSource::new(rt.stdin());
    let mut out = StdSink::new(rt.stdout());
    let mut log = StdSink::new(rt.stderr());
    exit_code(rt.alloc(), &words, &mut src, &mut out, &mut log)
}
