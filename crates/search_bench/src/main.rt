//! Runs the searches over lengths, and rerouting, on a board, often enough to be timed.
#![tactic(auto)]

mod forests;
mod lengths;
mod rerouting;
mod trees;

use crate::forests::settle_often;
use crate::lengths::{Mixed, mixed_lengths};
use crate::rerouting::reroute_often;
use crate::trees::grow_all;
use anyhow::{Context, bail};
use board_graph::BoardGraph;
use contest_input::read_board;
use std::alloc::Global;
use std::{env, fs};
use tdm_problem::Problem;

/// The words that the program takes.
const USAGE: &str = "usage: search_bench read|forests|trees|starts|passes|rounds BOARD";

/// How often the forests of a board are made.
const TURNS: u32 = 10;

/// So many rounds are rerouted.
const ROUNDS: u32 = 8;

/// What the searches say of a problem, in one number that shows that the work was done: of `forests` the
/// distances of the last FPGA from each root, of `trees` the lengths of the trees, added up modulo 2^64; of
/// `passes` and `rounds` the cost of the loads in units of 2^20. Of `read` and `starts` it is 0, and other
/// words are refused.
fn run(alloc: Global, what: &str, problem: &Problem) -> anyhow::Result<u64> {
    let graph = BoardGraph::of(alloc, problem)?;
    let lengths = Mixed(mixed_lengths(alloc, graph.wires())?);
    let sum = match what {
        "forests" => settle_often(alloc, &graph, &lengths, TURNS)?,
        "trees" => grow_all(alloc, problem, &graph, &lengths)?,
        "starts" => reroute_often(alloc, problem, &graph, 0)?,
        "passes" => reroute_often(alloc, problem, &graph, 1)?,
        "rounds" => reroute_often(alloc, problem, &graph, ROUNDS)?,
        "read" => 0,
        _ => bail!("{USAGE}"),
    };
    Ok(sum)
}

/// The words are what is run and the file of a board. `read` is for the time that reading takes; `starts`
/// makes the trees with which `passes`, one round of rerouting, and `rounds` begin.
fn main(rt: HostRuntime) -> anyhow::Result<()> {
    let alloc = rt.alloc();
    let mut words = env::args(&rt)?;
    let _name = words.next();
    let what = words.next().context(USAGE)?;
    let path = words.next().context(USAGE)?;
    let bytes = fs::read(&rt, path.as_str())?;
    if bytes.len() > 1 << 28 {
        bail!("the board is too long");
    }
    let problem = read_board(alloc, &bytes)?;
    println!(rt; "{}", run(alloc, what.as_str(), &problem)?)?;
    Ok(())
}
