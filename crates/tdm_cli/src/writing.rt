//! The texts that commands write.
ghost use Rattle.tdm_cli.specs.Texts.{text_of};

use bound_cert::{Certificate, write_cert};
use command_run::OutputText;
use contest_input::write_board;
use solution_text::write_solution;
use tdm_desk::{Desk, DeskFault, OutSlot};
use tdm_problem::{Problem, Solution};

/// What the file of an output is made to hold the text of.
#[derive(Drop)]
pub enum Output {
    Solution(Solution),
    Cert(Certificate),
    Board(Problem),
}

impl OutputText for Output {
    ghost use Rattle.tdm_cli.specs.Texts.{text_of};

    ghost text = { text_of };

    fn write<D: Desk>(&self, desk: &mut D, slot: OutSlot) -> Result<(), DeskFault> {
        match self {
            Output::Solution(solution) => write_solution(desk, slot, solution),
            Output::Cert(cert) => write_cert(desk, slot, cert),
            Output::Board(board) => write_board(desk, slot, board),
        }
    }
}
