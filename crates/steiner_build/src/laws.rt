//! Laws on trees and walks, which hold by their definitions alone.
ghost use Rattle.steiner_build.specs.Laws.{GrowthLaw, PathLaw, ShortWalkLaw, JoiningLaw, DistanceLaw};

/// A tree that grows by a path stays minimal: the path leads from a new terminal to the tree, by FPGAs that
/// the tree does not reach, none of them twice. So a path without repeats is a minimal tree of its ends.
pub fn tree_grows_by_a_path()
    ensures growth { GrowthLaw }
    ensures path { PathLaw }
{}

/// Where there is a walk between two FPGAs, there is one with fewer wires than the board has FPGAs.
pub fn walks_are_short()
    ensures { ShortWalkLaw }
{}

/// A length that no walks from a terminal to the others undercut together is at most the sum of the least
/// distances; and wires that join two terminals are at least as long as a walk between these.
pub fn joining_is_as_long_as_walks()
    ensures joining { JoiningLaw }
    ensures distance { DistanceLaw }
{}
