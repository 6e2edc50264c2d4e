//! The command `tdm`: routes the nets of a board of many FPGAs and gives each net a ratio on each wire it
//! uses, judges such solutions, and checks certificates of what no such solution can be worth less than.
#![tactic(auto)]

mod answer_report;
mod baseline;
mod best;
mod candidates;
mod certify;
mod check;
mod command;
mod deciding;
#[cfg(test)]
mod definitions;
mod demo;
mod eval;
#[cfg(test)]
mod fault_tests;
mod generate;
#[cfg(test)]
mod generated_tests;
mod growing;
#[cfg(test)]
mod large_tests;
mod numbers;
mod outcome;
mod prepare;
mod reading;
mod report;
mod rounds;
mod route;
mod status;
mod tdm;
#[cfg(test)]
mod tests;
mod verdict_report;
mod writing;

use crate::status::Status;
use crate::tdm::tdm;
use std::env;
use std::io::ErrorKind;
use std::process::ExitCode;
use tdm_desk::StdDesk;

/// Collects the words, runs the command over the real files and the standard output, and ends with its code:
/// 6 where memory ran out, and 2 where there are no words for another cause, as for a word that is not UTF-8.
fn main(rt: HostRuntime) -> ExitCode {
    let alloc = rt.alloc();
    let mut words = match env::args(&rt) {
        Ok(words) => words,
        Err(error) => {
            let code = if error.kind() == ErrorKind::OutOfMemory {
                Status::OutOfMemory.code()
            } else {
                Status::Usage.code()
            };
            return ExitCode::from(code);
        }
    };
    let _name = words.next();
    let words: Vec<String> = match words.collect(alloc) {
        Ok(words) => words,
        Err(_) => return ExitCode::from(Status::OutOfMemory.code()),
    };
    let mut desk = StdDesk::new(rt);
    ExitCode::from(tdm(alloc, &mut desk, &words).code())
}
