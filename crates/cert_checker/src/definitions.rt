//! First steep pairs and right answers, computed on small boards.
ghost use Rattle.std.specs.Prelude.{[], ◌∷◌};
ghost use Rattle.tdm_problem.specs.Samples.{pair, shared, star};
ghost use Rattle.bound_cert.specs.Samples.{star_cert, wire_cert};
ghost use Rattle.cert_checker.specs.declared.answer.CheckAnswer.TheVariants.{Accepted, Rejected};
ghost use Rattle.cert_checker.specs.Answer.{IsAcceptance, IsAnswer};
ghost use Rattle.cert_checker.specs.Steep.{IsFirstSteep, IsFirstSteepWire, IsLevel};

/// The first steep pair is the first potential that is steep along a wire, and the first such wire of it.
fn the_first_steep_pair()
    ensures level { IsLevel shared (wire_cert 1 3 0 3 (1 ∷ 1 ∷ 1 ∷ [])) 0 }
    ensures not_level { ¬ IsLevel shared (wire_cert 1 3 0 4 (1 ∷ 1 ∷ 1 ∷ [])) 0 }
    ensures first { IsFirstSteep shared (wire_cert 1 3 0 4 (1 ∷ 1 ∷ 1 ∷ []))
        (record { potential = 0; wire = 0 }) }
    ensures later_wire { IsFirstSteepWire star
        (record star_cert { potentials = (0 ∷ 0 ∷ 2 ∷ 2 ∷ []) ∷ [] }) 0 1 }
    ensures not_first { ¬ IsFirstSteepWire star
        (record star_cert { potentials = (0 ∷ 0 ∷ 2 ∷ 2 ∷ []) ∷ [] }) 0 2 }
    ensures later_potential { IsFirstSteep star
        (record star_cert { potentials = (1 ∷ 0 ∷ 2 ∷ 2 ∷ []) ∷ (0 ∷ 0 ∷ 0 ∷ 2 ∷ []) ∷ [] })
        (record { potential = 1; wire = 2 }) }
{}

/// A valid certificate is accepted with its bound and no other, and one that is not valid is rejected.
fn right_answers()
    ensures accepted { IsAnswer shared (wire_cert 1 3 0 3 (1 ∷ 1 ∷ 1 ∷ [])) (Accepted 10) }
    ensures hop { IsAnswer star star_cert (Accepted 4) }
    ensures other_bound { ¬ IsAnswer star star_cert (Accepted 2) }
    ensures not_rejected { ¬ IsAnswer star star_cert (Rejected (record { potential = 0; wire = 0 })) }
    ensures rejected { IsAnswer pair (wire_cert 1 1 2 0 (1 ∷ []))
        (Rejected (record { potential = 0; wire = 0 })) }
    ensures not_accepted { ¬ IsAnswer pair (wire_cert 1 1 2 0 (1 ∷ [])) (Accepted 4) }
    ensures acceptance { IsAcceptance (Accepted 10) }
    ensures no_acceptance { ¬ IsAcceptance (Rejected (record { potential = 0; wire = 0 })) }
{}
