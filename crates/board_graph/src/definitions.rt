//! The neighbours of an FPGA, computed on small boards.
ghost use Rattle.std.specs.Prelude.{◌≡◌, [], ◌∷◌};
ghost use Rattle.tdm_problem.specs.Samples.{doubled, ring, star};
ghost use Rattle.board_graph.specs.Graph.{graph_of};
ghost use Rattle.board_graph.specs.Neighbours.{neighbours_of};

/// Each wire at an FPGA stands with its other end, wires rising, and parallel wires stand both.
fn neighbours_stand_by_rising_wires()
    ensures parallel { neighbours_of (graph_of doubled) 0
        ≡ record { wire = 0; fpga = 1 } ∷ record { wire = 1; fpga = 1 } ∷ [] }
    ensures middle { neighbours_of (graph_of star) 0
        ≡ record { wire = 0; fpga = 1 } ∷ record { wire = 1; fpga = 2 } ∷ record { wire = 2; fpga = 3 } ∷ [] }
    ensures arm { neighbours_of (graph_of star) 3 ≡ record { wire = 2; fpga = 0 } ∷ [] }
    ensures both_ways { neighbours_of (graph_of ring) 1
        ≡ record { wire = 0; fpga = 0 } ∷ record { wire = 1; fpga = 2 } ∷ [] }
{}
