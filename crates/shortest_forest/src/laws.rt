//! Laws on searches, which hold by their definitions alone.
ghost use Rattle.shortest_forest.specs.Laws.{WayLaw, NearestWayLaw, FallingCapLaw};

/// The way back from an FPGA, turned round, leads from a source over arcs that are together no longer than
/// the FPGA's distance; where the lower bounds are true, those to the nearest goal are just as long.
pub fn ways_back_are_walks()
    ensures way { WayLaw }
    ensures nearest { NearestWayLaw }
{}

/// Within one search the cap may fall and bounds may rise.
pub fn caps_may_fall()
    ensures { FallingCapLaw }
{}
