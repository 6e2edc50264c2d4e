//! The text of a solution and the meaning of a text, computed on small solutions.
ghost use Rattle.std.specs.Prelude.{◌≡◌, [], ◌∷◌, codes, Ok, Err};
ghost use Rattle.tdm_problem.specs.Samples.{doubled, on_wire_0, pair, shared, split, use_at};
ghost use Rattle.solution_text.specs.Reading.{solution_of};
ghost use Rattle.solution_text.specs.Text.{solution_text};
ghost use Rattle.solution_text.specs.declared.refusal.SolutionKind.TheVariants.{BadNumber, ExtraLine, MissingLine, NumberTooLarge, RepeatedWire, UnknownWire, WrongCount};

/// The text of a solution has a count for each net, and a line for each use.
fn solutions_have_texts()
    ensures none { solution_text [] ≡ [] }
    ensures no_use { solution_text ([] ∷ []) ≡ codes "0\n" }
    ensures shared { solution_text (on_wire_0 (4 ∷ 4 ∷ 4 ∷ [])) ≡ codes "1\n0 4\n1\n0 4\n1\n0 4\n" }
    ensures large { solution_text ((use_at 0 2 ∷ use_at 7 4294967294 ∷ []) ∷ [] ∷ [])
        ≡ codes "2\n0 2\n7 4294967294\n0\n" }
{}

/// Texts and the solutions that they say.
fn texts_say_solutions()
    ensures pair { solution_of pair (codes "1\n0 2\n") ≡ Ok (on_wire_0 (2 ∷ [])) }
    ensures no_use { solution_of pair (codes "0\n") ≡ Ok ([] ∷ []) }
    ensures shared { solution_of shared (codes "1\n0 2\n1\n0 2\n1\n0 4294967294\n")
        ≡ Ok (on_wire_0 (2 ∷ 2 ∷ 4294967294 ∷ [])) }
    ensures falling { solution_of doubled (codes "2\n1 2\n0 4\n") ≡ Ok ((use_at 0 4 ∷ use_at 1 2 ∷ []) ∷ []) }
    ensures any_ratio { solution_of doubled (codes "\r\n 02\n\n1\t003\n0 0")
        ≡ Ok ((use_at 0 0 ∷ use_at 1 3 ∷ []) ∷ []) }
    ensures three_nets { solution_of split (codes "0\n0\n1\n1 2\n") ≡ Ok ([] ∷ [] ∷ (use_at 1 2 ∷ []) ∷ []) }
{}

/// The first line at fault is told, with what is wrong with it.
fn the_first_fault_decides()
    ensures empty { solution_of pair (codes "") ≡ Err (record { kind = MissingLine; line = 1 }) }
    ensures missing_line { solution_of pair (codes "1\n") ≡ Err (record { kind = MissingLine; line = 2 }) }
    ensures unknown_wire { solution_of pair (codes "1\n1 2\n")
        ≡ Err (record { kind = UnknownWire; line = 2 }) }
    ensures repeated_wire { solution_of pair (codes "2\n0 2\n0 2\n")
        ≡ Err (record { kind = RepeatedWire; line = 3 }) }
    ensures extra_line { solution_of pair (codes "1\n0 2\n\nx")
        ≡ Err (record { kind = ExtraLine; line = 4 }) }
    ensures count_line { solution_of pair (codes "1 1\n0 2\n")
        ≡ Err (record { kind = WrongCount; line = 1 }) }
    ensures use_line { solution_of pair (codes "1\n0\n") ≡ Err (record { kind = WrongCount; line = 2 }) }
    ensures too_large { solution_of pair (codes "1\n0 4294967296\n")
        ≡ Err (record { kind = NumberTooLarge; line = 2 }) }
    ensures bad_number { solution_of pair (codes "4294967296 -1\n")
        ≡ Err (record { kind = BadNumber; line = 1 }) }
{}
