//! A proposal of even ratios for given trees. Nothing is promised of it but that it is made: whoever takes it
//! checks it.
//!
//! Each net has a price, and a net's ratio on a wire is about the sum of the prices on the wire over its own
//! price. Turn by turn the nets of large groups are made dearer, so that their ratios become smaller and
//! those of others larger. Then the ratios are rounded to even numbers, and repriced and rounded again by the
//! sums that these gave.
ghost use Rattle.std.specs.Prelude.{◌≡◌, ◌<◌, length, All, IfOk};
ghost use Rattle.worst_refine.specs.Members.{AreMembersOf};
ghost use Rattle.worst_refine.specs.NetUses.{AreUsesOn};
ghost use Rattle.worst_refine.specs.TraderRoom.{IsTraderFor};

use crate::members::{Member, sum_groups, take_largest_sums};
use crate::net_uses::NetUse;
use crate::prices::{reprice, start_prices, take_inverses, take_loads};
use crate::rounding::{lower_all_classes, round_down_some, round_up};
use crate::sums::{PARTS, sum_loads, value_nets};
use crate::wire_rounding::{ClassCosts, Costs, WireRounding};
use std::alloc::{AllocError, Global};
use tdm_problem::Problem;

/// How often the prices are rounded at most.
const ROUNDINGS: u32 = 5;

/// The arrays of a trade: prices, values and parts by net, by group, by wire and by use.
#[derive(Drop)]
pub(crate) struct Trader {
    prices: Vec<u32>,
    loads: Vec<u64>,
    net_values: Vec<u32>,
    /// Of each net the sum of its loads, or the inverse of its price, as a sweep over the uses wants it.
    net_numbers: Vec<u64>,
    group_sums: Vec<u32>,
    wires: Vec<WireRounding>,
    classes: Vec<ClassCosts>,
    costs: Costs,
    halves: Vec<u32>,
    best_halves: Vec<u32>,
}

impl Trader {
    /// Prices in proportion to the numbers of the nets.
    pub(crate) fn new(
        alloc: Global,
        problem: &Problem,
        numbers: &[u64],
    ) -> Result<Trader, AllocError>
        requires { length numbers.now ≡ length problem.now.nets }
        ensures { IfOk result (IsTraderFor problem.now) }
    {
        let (nets, wires) = (problem.nets() as usize, problem.wires() as usize);
        let mut prices = vec![in alloc; 0u32; nets]?;
        start_prices(&mut prices, numbers);
        Ok(Trader {
            prices,
            loads: vec![in alloc; 0u64; wires]?,
            net_values: vec![in alloc; 0u32; nets]?,
            net_numbers: vec![in alloc; 0u64; nets]?,
            group_sums: vec![in alloc; 0u32; problem.groups() as usize]?,
            wires: vec![in alloc; WireRounding::new(); wires]?,
            classes: vec![in alloc; ClassCosts::new(); wires]?,
            costs: Costs::new(alloc)?,
            halves: Vec::new(alloc),
            best_halves: Vec::new(alloc),
        })
    }

    /// The halves of even ratios, use by use, by which the largest group sum may be below `best`; none where
    /// the trade saw that it would not be. All prices change at most `turns` times, the last four of them
    /// between roundings.
    pub(crate) fn propose(
        mut self,
        alloc: Global,
        problem: &Problem,
        members: &[Member],
        uses: &[NetUse],
        best: u64,
        turns: u32,
    ) -> Result<Option<Vec<u32>>, AllocError>
        requires room { IsTraderFor problem.now self }
        requires members { AreMembersOf problem.now members.now }
        requires uses { AreUsesOn problem.now uses.now }
    {
        let best = best.min(u64::MAX / PARTS);
        let goal = (best - best / 4096) * PARTS;
        let roundings = turns.min(ROUNDINGS);
        if self.take_turns(problem, members, uses, goal, turns - roundings + 1) > goal {
            return Ok(None);
        }
        self.halves = vec![in alloc; 0u32; uses.len()]?;
        self.best_halves = vec![in alloc; 0u32; uses.len()]?;
        if self.round_repeatedly(problem, members, uses, best, roundings) >= best {
            return Ok(None);
        }
        Ok(Some(self.best_halves))
    }

    /// Reprices up to so often, until a turn gains less than a 2^13th or the goal is out of reach at twice
    /// the last gain. Answers the largest group sum at the last prices, in parts.
    fn take_turns(
        &mut self,
        problem: &Problem,
        members: &[Member],
        uses: &[NetUse],
        goal: u64,
        turns: u32,
    ) -> u64
        requires room { IsTraderFor problem.now self.old }
        requires members { AreMembersOf problem.now members.now }
        requires uses { AreUsesOn problem.now uses.now }
        ensures { IsTraderFor problem.now self.new }
    {
        let mut last = u64::MAX;
        for turn in 0..turns {
            let worst = self.sum_at_prices(problem, members, uses);
            if worst > last - (last >> 13) || (turn >= 2 && is_out_of_reach(worst, last, goal)) {
                return worst;
            }
            last = worst;
            self.reprice_nets(problem, members, worst);
        }
        self.sum_at_prices(problem, members, uses)
    }

    /// Makes nets dearer or cheaper by their largest group sums, of which this is the worst. The values of the
    /// nets are lost.
    fn reprice_nets(&mut self, problem: &Problem, members: &[Member], worst: u64)
        requires room { IsTraderFor problem.now self.old }
        requires members { AreMembersOf problem.now members.now }
        ensures { IsTraderFor problem.now self.new }
    {
        take_largest_sums(&mut self.net_values, members, &self.group_sums);
        reprice(&mut self.prices, &self.net_values, worst);
    }

    /// The largest group sum at the prices, in parts.
    fn sum_at_prices(&mut self, problem: &Problem, members: &[Member], uses: &[NetUse]) -> u64
        requires room { IsTraderFor problem.now self.old }
        requires members { AreMembersOf problem.now members.now }
        requires uses { AreUsesOn problem.now uses.now }
        ensures { IsTraderFor problem.now self.new }
    {
        take_loads(&mut self.loads, uses, &self.prices);
        sum_loads(&mut self.net_numbers, uses, &self.prices, &self.loads);
        value_nets(&mut self.net_values, &self.net_numbers, &self.prices);
        sum_groups(&mut self.group_sums, members, &self.net_values)
    }

    /// Rounds, and reprices and rounds again, and keeps the best halves. It gives up where the gains cannot
    /// lead below `best`. Answers the largest group sum of the best.
    fn round_repeatedly(
        &mut self,
        problem: &Problem,
        members: &[Member],
        uses: &[NetUse],
        best: u64,
        roundings: u32,
    ) -> u64
        requires room { IsTraderFor problem.now self.old }
        requires members { AreMembersOf problem.now members.now }
        requires uses { AreUsesOn problem.now uses.now }
    {
        let (mut found, mut last) = (u64::MAX, u64::MAX);
        for k in 0..roundings {
            if k > 0 {
                self.reprice_nets(problem, members, last);
                take_loads(&mut self.loads, uses, &self.prices);
            }
            if !self.round(problem, uses) {
                return found;
            }
            let sum = sum_groups(&mut self.group_sums, members, &self.net_values);
            if sum < found {
                found = sum;
                std::mem::swap(&mut self.best_halves, &mut self.halves);
            }
            if k >= 2 && gains_too_little(sum, last, best) {
                return found;
            }
            last = sum;
        }
        found
    }

    /// Rounds the ratios at the prices to even numbers. Answers false where they do not fit the wires.
    fn round(&mut self, problem: &Problem, uses: &[NetUse]) -> bool
        requires room { IsTraderFor problem.now self.old }
        requires uses { AreUsesOn problem.now uses.now }
        ensures { IsTraderFor problem.now self.new }
    {
        take_inverses(&mut self.net_numbers, &self.prices);
        round_up(
            &mut self.halves,
            &mut self.wires,
            &mut self.classes,
            &self.costs,
            uses,
            &self.net_numbers,
            &self.loads,
        );
        if !lower_all_classes(&mut self.wires, &self.classes) {
            return false;
        }
        round_down_some(
            &mut self.halves,
            &mut self.net_values,
            &mut self.wires,
            &self.costs,
            uses,
        );
        true
    }
}

/// Whether the largest sum stays above the goal where the next turns gain twice as much as the last one.
fn is_out_of_reach(worst: u64, last: u64, goal: u64) -> bool {
    let gain = last.saturating_sub(worst).wrapping_mul(2);
    gain > 0 && worst > gain && worst - gain > goal
}

/// Whether a rounding gained so little that more of them are of no use.
fn gains_too_little(sum: u64, last: u64, best: u64) -> bool {
    let gain = last.saturating_sub(sum);
    gain < sum >> 15 || (sum > best && gain < (sum - best) / 2)
}
