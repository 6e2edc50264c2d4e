//! The sources of the nets, each once.
ghost use Rattle.std.specs.Prelude.{◌≡◌, IfOk, OnOk};
ghost use Rattle.tdm_problem.specs.Board.{IsBoard};
ghost use Rattle.bound_cert.specs.Sources.{sources_of};
ghost use Rattle.bound_cert.specs.Makers.{ChooseSources};

use indexmap::IndexSet;
use std::alloc::{AllocError, Global};
use tdm_problem::Problem;

/// The sources of the nets, each once, in the order in which the nets first have them, and for each net its
/// source's number among them plus 1.
#[derive(Drop)]
pub(crate) struct Sources {
    pub(crate) fpgas: IndexSet<u32>,
    pub(crate) choices: Vec<u32>,
}

impl Sources {
    /// The sources of a problem's nets.
    pub(crate) fn of(alloc: Global, problem: &Problem) -> Result<Sources, AllocError>
        ensures fpgas { IfOk result (λ sources. sources.fpgas.keys ≡ sources_of problem.now) }
        ensures board { OnOk result (IsBoard problem.now) }
        ensures choices { IfOk result (λ sources. ChooseSources problem.now sources.choices.items) }
    {
        let mut fpgas = IndexSet::new(alloc);
        let mut choices = Vec::with_capacity(alloc, problem.nets() as usize)?;
        for n in 0..problem.nets() {
            let (place, _) = fpgas.insert_full(problem.net(n)[0])?;
            choices.push(place as u32 + 1)?;
        }
        Ok(Sources { fpgas, choices })
    }
}
