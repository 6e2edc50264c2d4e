//! What the inputs of each command come to.
ghost use Rattle.std.specs.Prelude.{◌∷◌, [], List};
ghost use Rattle.tdm_desk.specs.Files.{Name};
ghost use Rattle.tdm_desk.specs.declared.slots.InSlot.TheVariants.{In0};
ghost use Rattle.command_run.specs.Inputs.{ByInput, ByNone};
ghost use Rattle.command_run.specs.Decision.{Decides};
ghost use Rattle.tdm_cli.specs.Texts.{text_of};
ghost use Rattle.tdm_cli.specs.Kinds.{faults, boards, board_input, solution_input, cert_input};
ghost use Rattle.tdm_cli.specs.Request.{Asks, request_of, inputs_of};
ghost use Rattle.tdm_cli.specs.Outcomes.{Routes, JudgesNext, ChecksNext, CallsFor};

use crate::check::check;
use crate::command::Command;
use crate::demo::demo;
use crate::eval::eval;
use crate::generate::generate;
use crate::outcome::refused;
use crate::reading::{BoardText, CertText, SolutionText};
use crate::route::route;
use crate::status::Status;
use crate::writing::Output;
use command_run::{Decision, decided, read_input};
use std::alloc::Global;
use tdm_desk::{Desk, InSlot};
use tdm_problem::Problem;

/// Reads the board, and routes its nets by so many rounds.
fn decide_route<D: Desk>(
    alloc: Global,
    desk: &mut D,
    board: &str,
    rounds: u32,
) -> Decision<Status, Output>
    ensures { Decides D.counts D.steady D.seen text_of faults 0 (board_input board.now ∷ [])
        (ByInput faults In0 boards (λ problem. ByNone (Routes problem rounds))) desk.old desk.new result }
{
    match read_input(alloc, desk, InSlot::In0, board, BoardText::new(alloc)) {
        Ok(problem) => decided(route(alloc, &problem, rounds)),
        Err(decision) => decision,
    }
}

/// Reads the solution for the problem, and judges it.
fn decide_judging<D: Desk>(
    alloc: Global,
    desk: &mut D,
    problem: &Problem,
    solution: &str,
) -> Decision<Status, Output>
    ensures { Decides D.counts D.steady D.seen text_of faults 1 (solution_input solution.now ∷ [])
        (JudgesNext problem.now) desk.old desk.new result }
{
    let reader = SolutionText::new(alloc, problem);
    match read_input(alloc, desk, InSlot::In1, solution, reader) {
        Ok(routing) => decided(eval(alloc, problem, &routing)),
        Err(decision) => decision,
    }
}

/// Reads the board and the solution, and judges the solution.
fn decide_eval<D: Desk>(
    alloc: Global,
    desk: &mut D,
    board: &str,
    solution: &str,
) -> Decision<Status, Output>
    ensures { Decides D.counts D.steady D.seen text_of faults 0
        (board_input board.now ∷ solution_input solution.now ∷ [])
        (ByInput faults In0 boards JudgesNext) desk.old desk.new result }
{
    match read_input(alloc, desk, InSlot::In0, board, BoardText::new(alloc)) {
        Ok(problem) => decide_judging(alloc, desk, &problem, solution),
        Err(decision) => decision,
    }
}

/// Reads the certificate for the problem, and checks it.
fn decide_checking<D: Desk>(
    alloc: Global,
    desk: &mut D,
    problem: &Problem,
    cert: &str,
) -> Decision<Status, Output>
    ensures { Decides D.counts D.steady D.seen text_of faults 1 (cert_input cert.now ∷ [])
        (ChecksNext problem.now) desk.old desk.new result }
{
    let reader = CertText::new(alloc, problem);
    match read_input(alloc, desk, InSlot::In1, cert, reader) {
        Ok(cert) => decided(check(alloc, problem, &cert)),
        Err(decision) => decision,
    }
}

/// Reads the board and the certificate, and checks the certificate.
fn decide_check<D: Desk>(
    alloc: Global,
    desk: &mut D,
    board: &str,
    cert: &str,
) -> Decision<Status, Output>
    ensures { Decides D.counts D.steady D.seen text_of faults 0
        (board_input board.now ∷ cert_input cert.now ∷ [])
        (ByInput faults In0 boards ChecksNext) desk.old desk.new result }
{
    match read_input(alloc, desk, InSlot::In0, board, BoardText::new(alloc)) {
        Ok(problem) => decide_checking(alloc, desk, &problem, cert),
        Err(decision) => decision,
    }
}

/// Reads the inputs of a command that was found, in order, as far as one decides, and does its work; or
/// refuses words that are none.
pub fn decide<D: Desk>(
    alloc: Global,
    desk: &mut D,
    command: &Option<Command<'_>>,
) -> Decision<Status, Output>
    requires { (words : List Name) × Asks words (request_of command.now) }
    ensures { Decides D.counts D.steady D.seen text_of faults 0 (inputs_of (request_of command.now))
        (CallsFor (request_of command.now)) desk.old desk.new result }
{
    match command {
        Some(Command::Route { board, rounds, .. }) => decide_route(alloc, desk, board, *rounds),
        Some(Command::Eval { board, solution }) => decide_eval(alloc, desk, board, solution),
        Some(Command::Check { board, cert }) => decide_check(alloc, desk, board, cert),
        Some(
            Command::Gen {
                fpgas,
                nets,
                groups,
                ..
            },
        ) => decided(generate(alloc, *fpgas, *nets, *groups)),
        Some(
            Command::Demo {
                fpgas,
                nets,
                groups,
                ..
            },
        ) => decided(demo(alloc, *fpgas, *nets, *groups)),
        None => decided(refused(alloc)),
    }
}
