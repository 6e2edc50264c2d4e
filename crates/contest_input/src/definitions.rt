//! The meaning of a board text, computed on small texts.
ghost use Rattle.std.specs.Prelude.{◌≡◌, [], ◌∷◌, codes, None, Some, Ok, Err};
ghost use Rattle.tdm_problem.specs.Samples.{pair, shared, split, star};
ghost use Rattle.contest_input.specs.BoardText.{board_of};
ghost use Rattle.contest_input.specs.declared.kind.BoardKind.TheVariants.{BadNumber, CountLimit, ExtraLine, MissingLine, NoHeader, NumberTooLarge, SelfLoop, TotalLimit, UnknownFpga, UnknownNet, WrongCount};
ghost use Rattle.contest_input.specs.Faults.{group_fault, header_fault, net_fault, wire_fault};

/// Texts and the boards that they describe.
fn texts_describe_boards()
    ensures pair { board_of (codes "2 1 1 1\n0 1\n0 1\n0\n") ≡ Ok pair }
    ensures shared { board_of (codes "2 1 3 1\n0 1\n0 1\n0 1\n0 1\n0 1 2\n") ≡ Ok shared }
    ensures star { board_of (codes "4 3 1 1\n0 1\n0 2\n0 3\n1 2 3\n0\n") ≡ Ok star }
    ensures split { board_of (codes "4 2 3 0\n0 1\n2 3\n0 2\n0 1\n3 1\n") ≡ Ok split }
    ensures empty { board_of (codes "0 0 0 0\n")
        ≡ Ok (record { fpgas = 0; wires = []; nets = []; groups = [] }) }
{}

/// Repeated numbers count once, in their first place.
fn repeats_count_once()
    ensures group { board_of (codes "2 1 1 1\n0 1\n0 1\n0 0\n") ≡ Ok pair }
    ensures net { board_of (codes "2 1 1 1\n0 1\n1 1 1\n0\n") ≡ Ok (record pair { nets = (1 ∷ []) ∷ [] }) }
{}

/// Line ends, blank lines, leading zeros and a last line without its end change nothing.
fn blanks_and_leading_zeros_say_nothing()
    ensures blanks { board_of (codes "2 1 1 1\r\n0 1\r\n\r\n \t\r\n0 1\r\n0") ≡ Ok pair }
    ensures zeros { board_of (codes "002 1 01 1\n0 1\n0 1\n0\n") ≡ Ok pair }
{}

/// The first line at fault is told, with what is wrong with it.
fn the_first_fault_decides()
    ensures no_header { board_of (codes "") ≡ Err (record { kind = NoHeader; line = 1 }) }
    ensures blank { board_of (codes " \n\t\n") ≡ Err (record { kind = NoHeader; line = 3 }) }
    ensures bad_number { board_of (codes "2 1 1 1\n0 x\n") ≡ Err (record { kind = BadNumber; line = 2 }) }
    ensures number_too_large { board_of (codes "4294967296 0 0 0\n")
        ≡ Err (record { kind = NumberTooLarge; line = 1 }) }
    ensures largest_number { board_of (codes "4294967295 0 0 0\n")
        ≡ Err (record { kind = CountLimit; line = 1 }) }
    ensures leading_zeros { board_of (codes "00004294967295 0 0 0\n")
        ≡ Err (record { kind = CountLimit; line = 1 }) }
    ensures wrong_count { board_of (codes "2 1 1\n") ≡ Err (record { kind = WrongCount; line = 1 }) }
    ensures count_limit { board_of (codes "4097 0 0 0\n") ≡ Err (record { kind = CountLimit; line = 1 }) }
    ensures unknown_fpga { board_of (codes "2 1 0 0\n2 2\n") ≡ Err (record { kind = UnknownFpga; line = 2 }) }
    ensures self_loop { board_of (codes "3 1 0 0\n2 2\n") ≡ Err (record { kind = SelfLoop; line = 2 }) }
    ensures largest_fpga { board_of (codes "2 1 0 0\n0 4294967295\n")
        ≡ Err (record { kind = UnknownFpga; line = 2 }) }
    ensures larger_fpga { board_of (codes "2 1 0 0\n0 4294967296\n")
        ≡ Err (record { kind = NumberTooLarge; line = 2 }) }
    ensures unknown_net { board_of (codes "2 1 1 1\n0 1\n0 1\n1\n")
        ≡ Err (record { kind = UnknownNet; line = 4 }) }
    ensures missing_line { board_of (codes "2 1 1 1\n0 1\n0 1\n")
        ≡ Err (record { kind = MissingLine; line = 4 }) }
    ensures extra_line { board_of (codes "2 1 1 1\n0 1\n0 1\n0\n0\n")
        ≡ Err (record { kind = ExtraLine; line = 5 }) }
    ensures earlier { board_of (codes "2 1 1 1\n0 1\n0 2\nx\n")
        ≡ Err (record { kind = UnknownFpga; line = 3 }) }
    ensures later { board_of (codes "2 1 1 1\n0 1\n0 x") ≡ Err (record { kind = BadNumber; line = 3 }) }
{}

/// Counts and totals at their limits are no fault, and one more is; of two faults of a line the first in
/// order is told.
fn limits_are_exact()
    ensures at_all { header_fault (4096 ∷ 65536 ∷ 1048576 ∷ 1048576 ∷ []) ≡ None }
    ensures wires { header_fault (0 ∷ 65537 ∷ 0 ∷ 0 ∷ []) ≡ Some CountLimit }
    ensures nets { header_fault (0 ∷ 0 ∷ 1048577 ∷ 0 ∷ []) ≡ Some CountLimit }
    ensures groups { header_fault (0 ∷ 0 ∷ 0 ∷ 1048577 ∷ []) ≡ Some CountLimit }
    ensures count_first { wire_fault 2 (2 ∷ 2 ∷ 2 ∷ []) ≡ Some WrongCount }
    ensures first_end { wire_fault 2 (2 ∷ 1 ∷ []) ≡ Some UnknownFpga }
    ensures second_end { wire_fault 2 (0 ∷ 2 ∷ []) ≡ Some UnknownFpga }
    ensures both_ends { wire_fault 2 (1 ∷ 0 ∷ []) ≡ None }
    ensures at_total { net_fault 1 16777216 (0 ∷ []) ≡ None }
    ensures net_total { net_fault 1 16777217 (0 ∷ []) ≡ Some TotalLimit }
    ensures at_group_total { group_fault 1 16777216 (0 ∷ []) ≡ None }
    ensures group_total { group_fault 1 16777217 (0 ∷ []) ≡ Some TotalLimit }
    ensures unknown_first { net_fault 1 16777217 (1 ∷ []) ≡ Some UnknownFpga }
{}
