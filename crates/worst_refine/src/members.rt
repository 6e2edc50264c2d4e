//! The groups of all nets in one list, since a trade goes over them many times: with a row for each net, the
//! end of each row of one to four groups is a branch that a processor guesses wrong.
ghost use Rattle.std.specs.Prelude.{◌<◌, length, All, IfOk, OnOk};
ghost use Rattle.tdm_problem.specs.Board.{Board};
ghost use Rattle.net_groups.specs.Incidence.{IsIncidenceOf};
ghost use Rattle.worst_refine.specs.Members.{AreMembersOf};
ghost use Rattle.worst_refine.specs.declared.members.Member.{Member};

use crate::numbers::larger;
use net_groups::Incidence;
use std::alloc::{AllocError, Global};
use tdm_problem::Problem;

/// A net and a group that holds it.
#[derive(Clone, Copy)]
pub(crate) struct Member {
    pub net: u32,
    pub group: u32,
}

/// Each net with each group that holds it, nets rising. The only error is want of memory.
pub(crate) fn members_of(
    alloc: Global,
    problem: &Problem,
    incidence: &Incidence,
) -> Result<Vec<Member>, AllocError>
    requires { IsIncidenceOf problem.now incidence.now }
    ensures { IfOk result (λ members. AreMembersOf problem.now members.items) }
{
    let mut members = Vec::with_capacity(alloc, count_of(incidence))?;
    for n in 0..incidence.nets() {
        add_groups(&mut members, n, incidence.groups_of(n))?;
    }
    Ok(members)
}

/// How many members there are.
fn count_of(incidence: &Incidence) -> usize {
    let mut count = 0usize;
    for n in 0..incidence.nets() {
        count = count.saturating_add(incidence.groups_of(n).len());
    }
    count
}

/// Adds a net with each of these groups.
fn add_groups(members: &mut Vec<Member>, net: u32, groups: &[u32]) -> Result<(), AllocError>
    ensures { OnOk result ((board : Board) → net < length board.nets
        → All (λ g. g < length board.groups) groups.now
        → AreMembersOf board members.old.items → AreMembersOf board members.new.items) }
{
    for group in groups {
        members.push(Member { net, group: *group })?;
    }
    Ok(())
}

/// The sum of each group from the values of the nets, and the largest of them. Sums stop at 2^32 - 1.
pub(crate) fn sum_groups(sums: &mut [u32], members: &[Member], values: &[u32]) -> u64
    requires groups { All (λ (m : Member). m.group < length sums.old) members.now }
    requires nets { All (λ (m : Member). m.net < length values.now) members.now }
{
    for sum in sums.iter_mut() {
        *sum = 0;
    }
    for member in members {
        let group = member.group as usize;
        sums[group] = sums[group].saturating_add(values[member.net as usize]);
    }
    u64::from(largest(sums))
}

/// The largest of these sums, 0 of none.
fn largest(sums: &[u32]) -> u32 {
    let mut most = 0;
    for sum in sums {
        most = larger(most, *sum);
    }
    most
}

/// Gives each net the largest sum of its groups, 0 where it is in none.
pub(crate) fn take_largest_sums(own: &mut [u32], members: &[Member], sums: &[u32])
    requires groups { All (λ (m : Member). m.group < length sums.now) members.now }
    requires nets { All (λ (m : Member). m.net < length own.old) members.now }
{
    for sum in own.iter_mut() {
        *sum = 0;
    }
    for member in members {
        let net = member.net as usize;
        own[net] = larger(own[net], sums[member.group as usize]);
    }
}
