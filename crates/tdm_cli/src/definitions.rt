//! The reports, the codes and two rounds, computed.
ghost use Rattle.std.specs.Prelude.{◌≡◌, ◌+◌, ◌-◌, ◌*◌, ◌<◌, [], ◌∷◌, codes, sum};
ghost use Rattle.tdm_problem.specs.Loads.{load_cost, marginal_length};
ghost use Rattle.tdm_problem.specs.Roots.{IsRoot};
ghost use Rattle.tdm_problem.specs.Samples.{star, use_at};
ghost use Rattle.tdm_problem.specs.Weights.{net_weight};
ghost use Rattle.bound_cert.specs.Bound.{least_even};
ghost use Rattle.cert_checker.specs.declared.answer.CheckAnswer.TheVariants.{Accepted, Rejected};
ghost use Rattle.solution_eval.specs.declared.judgement.Verdict.TheVariants.{BadRatio, Legal, NotJoined, Overfull};
ghost use Rattle.command_run.specs.Reports.{no_input_report, read_fault_report};
ghost use Rattle.tdm_cli.specs.Code.{code_of};
ghost use Rattle.tdm_cli.specs.declared.status.Status.TheVariants.{BoardRefused, CertRefused, CertRejected, Illegal, NoInput, Ok, OutOfMemory, ReadFault, SolutionRefused, Unconnectable, Usage, UseLimit, WriteFault};
ghost use Rattle.tdm_cli.specs.Reports.{answer_report, board_refused_report, cert_refused_report, route_report, size_report, solution_refused_report, unconnectable_report, usage_report, use_limit_report, verdict_report};
ghost use Rattle.tdm_cli.specs.Rounds.{first_weights, next_of, round_lengths, round_value, solution_of_round, FitsUses};
ghost use Rattle.tdm_cli.specs.TwoRounds.{first_round, five_on_two, second_round};

/// Reports are lines of words and numbers.
fn reports_are_lines()
    ensures common { usage_report ∷ read_fault_report 1 ∷ no_input_report 1 ∷ []
        ≡ codes "words refused\n" ∷ codes "read fault input 1\n" ∷ codes "no input 1\n" ∷ [] }
    ensures refused { board_refused_report (codes "MissingLine") 4 ∷ solution_refused_report
        (codes "RepeatedWire") 3
        ∷ cert_refused_report (codes "BadKind") 1 ∷ []
        ≡ codes "board refused MissingLine line 4\n" ∷ codes "solution refused RepeatedWire line 3\n"
        ∷ codes "certificate refused BadKind line 1\n" ∷ [] }
    ensures routed { route_report 10 10 ∷ unconnectable_report (0 ∷ 2 ∷ []) ∷ use_limit_report
        ∷ size_report star ∷ []
        ≡ codes "value 10\nbound 10\n" ∷ codes "unconnectable net 0\nunconnectable net 2\n"
        ∷ codes "too many uses\n" ∷ codes "fpgas 4 wires 3 nets 1 groups 1\n" ∷ [] }
    ensures judged { verdict_report (Legal 20) ∷ verdict_report (NotJoined 0) ∷ verdict_report
        (BadRatio 0 0 3)
        ∷ verdict_report (Overfull 0) ∷ []
        ≡ codes "value 20\n" ∷ codes "illegal net 0 not joined\n" ∷ codes "illegal net 0 wire 0 ratio 3\n"
        ∷ codes "illegal wire 0 overfull\n" ∷ [] }
    ensures checked { answer_report (Accepted 10)
        ∷ answer_report (Rejected (record { potential = 0; wire = 0 })) ∷ []
        ≡ codes "bound 10\n" ∷ codes "steep potential 0 wire 0\n" ∷ [] }
{}

/// Each status ends the process with a number of its own.
fn statuses_have_codes()
    ensures { code_of Ok ∷ code_of BoardRefused ∷ code_of Usage ∷ code_of Unconnectable ∷ code_of ReadFault
        ∷ code_of WriteFault ∷ code_of OutOfMemory ∷ code_of SolutionRefused ∷ code_of Illegal
        ∷ code_of CertRefused
        ∷ code_of CertRejected ∷ code_of UseLimit ∷ code_of NoInput ∷ []
        ≡ 0 ∷ 1 ∷ 2 ∷ 3 ∷ 4 ∷ 5 ∷ 6 ∷ 7 ∷ 8 ∷ 9 ∷ 10 ∷ 11 ∷ 14 ∷ [] }
{}

/// In the first round five nets weigh the same, and three of them share a wire; the sums of their groups are
/// twice those of the others. So in the second round they weigh twice as much, and one of them moves to the
/// wire of the others, whose marginal length is less. Both rounds have a bound of 2: each net is as long as
/// the shorter of the two wires.
fn rounds_weigh_move_and_share()
    ensures weights { first_weights five_on_two ≡ first_round.weights }
    ensures root { IsRoot (net_weight five_on_two.groups first_round.weights 2) 1024 }
    ensures fits { FitsUses first_round }
    ensures ratios { solution_of_round five_on_two first_round ≡ (use_at 1 2 ∷ []) ∷ (use_at 1 2 ∷ [])
        ∷ (use_at 0 4 ∷ []) ∷ (use_at 0 4 ∷ []) ∷ (use_at 0 4 ∷ []) ∷ [] }
    ensures value { round_value five_on_two first_round ≡ 4 }
    ensures lengths { round_lengths five_on_two first_round ≡ 3072 ∷ 2048 ∷ [] }
    ensures bound { least_even (2 * (5 * (1024 * 2048)) - (3072 * 3072 + 2048 * 2048))
        (sum first_round.weights) ≡ 2 }
    ensures next_weights { next_of five_on_two first_round ≡ second_round.weights }
    ensures next_root { IsRoot (net_weight five_on_two.groups second_round.weights 0) 741455 }
    ensures marginal { marginal_length first_round.trees second_round.numbers 2 1
        < marginal_length first_round.trees second_round.numbers 2 0 }
    ensures moved { load_cost five_on_two second_round.trees second_round.numbers
        < load_cost five_on_two first_round.trees second_round.numbers }
    ensures next_ratios { solution_of_round five_on_two second_round ≡ (use_at 1 4 ∷ []) ∷ (use_at 1 4 ∷ [])
        ∷ (use_at 1 4 ∷ []) ∷ (use_at 0 2 ∷ []) ∷ (use_at 0 2 ∷ []) ∷ [] }
    ensures next_value { round_value five_on_two second_round ≡ 4 }
    ensures next_lengths { round_lengths five_on_two second_round ≡ 2097152 ∷ 2531486 ∷ [] }
    ensures next_bound { least_even (2 * (4628638 * 2097152) - (2097152 * 2097152 + 2531486 * 2531486))
        (sum second_round.weights) ≡ 2 }
{}
