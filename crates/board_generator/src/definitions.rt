//! The board that three numbers stand for, computed.
ghost use Rattle.std.specs.Prelude.{◌≡◌, [], ◌∷◌};
ghost use Rattle.board_generator.specs.Generated.{generated, group_of, net_of, wire_over};

/// Four FPGAs with eight wires, three nets and two groups.
fn three_numbers_give_a_board()
    ensures { generated 4 3 2 ≡ record {
      fpgas = 4;
      wires = record { a = 0; b = 1 } ∷ record { a = 1; b = 2 } ∷ record { a = 2; b = 3 } ∷ record {
        a = 3;
        b = 0;
      }
          ∷ record { a = 0; b = 2 } ∷ record { a = 1; b = 3 } ∷ record { a = 2; b = 0 } ∷ record {
            a = 3;
            b = 1;
          } ∷ [];
      nets = (0 ∷ 3 ∷ 1 ∷ []) ∷ (3 ∷ 2 ∷ []) ∷ (2 ∷ 1 ∷ 3 ∷ []) ∷ [];
      groups = (0 ∷ 1 ∷ 2 ∷ []) ∷ (1 ∷ []) ∷ [];
    } }
{}

/// Half around a ring of five are two steps. What comes again stands in its first place alone.
fn rings_may_be_odd_and_lists_short()
    ensures half { wire_over 5 2 4 ≡ record { a = 4; b = 1 } }
    ensures net { net_of 2 0 ≡ 0 ∷ 1 ∷ [] }
    ensures group { group_of 1 7 ≡ 0 ∷ [] }
{}
