//! Certificates, their texts and their bounds, computed on small boards.
ghost use Rattle.std.specs.Prelude.{◌≡◌, false, ◌-◌, ◌^◌, [], ◌∷◌, codes, Ok, Err};
ghost use Rattle.tdm_problem.specs.Samples.{pair, ring, shared, star};
ghost use Rattle.bound_cert.specs.Bound.{bound_of, least_even, smallest, spread};
ghost use Rattle.bound_cert.specs.CertReading.{cert_of, count_said};
ghost use Rattle.bound_cert.specs.CertText.{cert_text};
ghost use Rattle.bound_cert.specs.declared.certificate.CertKind.TheVariants.{Hop, Share};
ghost use Rattle.bound_cert.specs.declared.limits.TheConstants.{MAX_LENGTH, MAX_POTENTIALS, MAX_POTENTIAL_VALUE, MAX_UNIT, MAX_WEIGHT, UNIFORM_WEIGHT};
ghost use Rattle.bound_cert.specs.declared.refusal.CertTextKind.TheVariants.{BadKind, BadNumber, BadUnit, BadVersion, CountLimit, ExtraLine, LengthLimit, MissingLine, NoHeader, NumberTooLarge, UnknownPotential, WeightLimit, WrongCount};
ghost use Rattle.bound_cert.specs.Growth.{IsGrowth};
ghost use Rattle.bound_cert.specs.Floors.{hop_floor, part_of, share_floor, uniform_length};
ghost use Rattle.bound_cert.specs.Makers.{growing_cert, group_growing_cert};
ghost use Rattle.bound_cert.specs.Sources.{sources_of};
ghost use Rattle.bound_cert.specs.Certificate.{IsCert, IsCertFor};
ghost use Rattle.bound_cert.specs.Samples.{ring_of_five, star_cert, wire_cert};
ghost use Rattle.bound_cert.specs.Valid.{IsSteep, IsValid};

use tdm_problem::root_is_exact;

/// FPGAs of a triangle, of a ring of five and of the star, all of whose wires are 1 long. On the star the
/// heights fall along one wire in one direction and then in the other.
fn fpgas_grow()
    ensures triangle { IsGrowth ring (λ e. 1) (0 ∷ 1 ∷ 2 ∷ []) 2 }
    ensures ring_of_five { IsGrowth ring_of_five (λ e. 1) (0 ∷ 2 ∷ 3 ∷ []) 3 }
    ensures both_ways { IsGrowth star (λ e. 1) (1 ∷ 2 ∷ 3 ∷ []) 3 }
{}

/// Bounds of certificates for three nets on one wire, and for the star.
fn bounds_are_raised_to_even_numbers()
    ensures share { bound_of shared (wire_cert 1 3 0 3 (1 ∷ 1 ∷ 1 ∷ [])) ≡ 10 }
    ensures root_of_two { bound_of shared (wire_cert 2 3 0 3 (1 ∷ 1 ∷ 1 ∷ [])) ≡ 6 }
    ensures negative { bound_of shared (wire_cert 1 3 0 3 (0 ∷ 0 ∷ 0 ∷ [])) ≡ 0 }
    ensures no_weight { bound_of shared (wire_cert 0 3 0 3 (1 ∷ 1 ∷ 1 ∷ [])) ≡ 0 }
    ensures hop { bound_of star star_cert ≡ 4 }
{}

/// A spread goes from the smallest value to the largest, and a bound is the least even number that is enough.
fn spreads_and_least_even_numbers()
    ensures spread { spread (1 ∷ 0 ∷ 2 ∷ 7 ∷ []) (2 ∷ 0 ∷ 1 ∷ []) ≡ 2 }
    ensures one { spread (1 ∷ 0 ∷ 2 ∷ 7 ∷ []) (3 ∷ []) ≡ 0 }
    ensures smallest { smallest (3 ∷ 1 ∷ 2 ∷ []) ≡ 1 }
    ensures raised { least_even 9 1 ≡ 10 }
    ensures divided { least_even 9 2 ≡ 6 }
    ensures exact { least_even 8 2 ≡ 4 }
{}

/// A potential may rise along a wire by its length, either way, and no more.
fn a_potential_rises_by_the_length_at_most()
    ensures certificate { IsCert (wire_cert 1 3 0 3 (1 ∷ 1 ∷ 1 ∷ [])) }
    ensures for_board { IsCertFor shared (wire_cert 1 3 0 3 (1 ∷ 1 ∷ 1 ∷ [])) }
    ensures gentle { IsValid shared (wire_cert 1 3 0 3 (1 ∷ 1 ∷ 1 ∷ [])) }
    ensures hops_are_gentle { IsValid star star_cert }
    ensures steep { IsSteep shared (wire_cert 1 3 0 4 (1 ∷ 1 ∷ 1 ∷ [])) 0 0 }
    ensures steep_back { IsSteep shared (wire_cert 1 3 4 0 (1 ∷ 1 ∷ 1 ∷ [])) 0 0 }
    ensures not_valid { ¬ IsValid shared (wire_cert 1 3 0 4 (1 ∷ 1 ∷ 1 ∷ [])) }
{}

/// The texts of certificates of both kinds, by choices and by growth, and what these texts say.
fn certificates_have_texts()
    ensures share { cert_text (wire_cert 1 3 0 3 (1 ∷ 1 ∷ 1 ∷ [])) ≡ codes "1 1 0 1\n1\n3\n0 3\n1\n1\n1\n" }
    ensures hop { cert_text star_cert ≡ codes "1 2 1 1\n1\n1 0 2 2\n1\n" }
    ensures growing_share { cert_text (growing_cert shared Share (1 ∷ []) (3 ∷ []))
        ≡ codes "4 1 0 0\n1\n3\n" }
    ensures growing_hop { cert_text (group_growing_cert star 0) ≡ codes "4 2 1 0\n1\n" }
    ensures reads_share { cert_of shared (codes "1 1 0 1\n1\n3\n0 3\n1\n1\n1\n")
        ≡ Ok (wire_cert 1 3 0 3 (1 ∷ 1 ∷ 1 ∷ [])) }
    ensures reads_growing_share { cert_of shared (codes "4 1 0 0\n1\n3\n")
        ≡ Ok (growing_cert shared Share (1 ∷ []) (3 ∷ [])) }
    ensures reads_growing_hop { cert_of star (codes "4 2 1 0\n1") ≡ Ok (group_growing_cert star 0) }
    ensures reads_hop { cert_of star (codes "1 2 01 1\r\n1\n\n1 0 2\t2\n1") ≡ Ok star_cert }
{}

/// The first line at fault is told, with what is wrong with it.
fn the_first_fault_decides()
    ensures no_header { cert_of pair (codes "\n") ≡ Err (record { kind = NoHeader; line = 2 }) }
    ensures bad_number { cert_of pair (codes "1 1 0 x\n") ≡ Err (record { kind = BadNumber; line = 1 }) }
    ensures too_large { cert_of pair (codes "1 1 0 1\n1\n1\n0 1152921504606846976\n1\n")
        ≡ Err (record { kind = NumberTooLarge; line = 4 }) }
    ensures wrong_count { cert_of pair (codes "1 1 0\n") ≡ Err (record { kind = WrongCount; line = 1 }) }
    ensures few_values { cert_of pair (codes "1 1 0 1\n1\n1\n0\n1\n")
        ≡ Err (record { kind = WrongCount; line = 4 }) }
    ensures bad_version { cert_of pair (codes "2 1 0 0\n") ≡ Err (record { kind = BadVersion; line = 1 }) }
    ensures no_third_version { cert_of pair (codes "3 1 0 0\n")
        ≡ Err (record { kind = BadVersion; line = 1 }) }
    ensures bad_kind { cert_of pair (codes "1 3 0 0\n") ≡ Err (record { kind = BadKind; line = 1 }) }
    ensures bad_unit { cert_of pair (codes "1 1 1 0\n") ≡ Err (record { kind = BadUnit; line = 1 }) }
    ensures no_unit { cert_of pair (codes "1 2 0 0\n") ≡ Err (record { kind = BadUnit; line = 1 }) }
    ensures count_limit { cert_of pair (codes "1 1 0 4097\n") ≡ Err (record { kind = CountLimit; line = 1 }) }
    ensures growing_potential { cert_of pair (codes "4 1 0 1\n")
        ≡ Err (record { kind = CountLimit; line = 1 }) }
    ensures growing_choice { cert_of pair (codes "4 1 0 0\n1\n1\n0\n")
        ≡ Err (record { kind = ExtraLine; line = 4 }) }
    ensures weight_limit { cert_of pair (codes "1 1 0 0\n1099511627777\n")
        ≡ Err (record { kind = WeightLimit; line = 2 }) }
    ensures length_limit { cert_of pair (codes "1 1 0 0\n1\n281474976710657\n")
        ≡ Err (record { kind = LengthLimit; line = 3 }) }
    ensures unknown_potential { cert_of pair (codes "1 1 0 1\n1\n1\n0 1\n2\n")
        ≡ Err (record { kind = UnknownPotential; line = 5 }) }
    ensures missing_line { cert_of pair (codes "1 1 0 0\n1\n1\n")
        ≡ Err (record { kind = MissingLine; line = 4 }) }
    ensures extra_line { cert_of pair (codes "1 1 0 0\n1\n1\n0\nx")
        ≡ Err (record { kind = ExtraLine; line = 5 }) }
{}

/// Numbers at their limits are no fault, and one more is: the faults above have a weight, a length, a value
/// and a choice of one more.
fn limits_are_exact()
    ensures unit { cert_of pair (codes "1 2 1048576 0\n1\n0\n")
        ≡ Ok (record {
          kind = Hop 1048576;
          grows = false;
          weights = 1 ∷ [];
          lengths = 1048576 ∷ [];
          potentials = [];
          choices = 0 ∷ [];
        }) }
    ensures above_unit { cert_of pair (codes "1 2 1048577 0\n1\n0\n")
        ≡ Err (record { kind = BadUnit; line = 1 }) }
    ensures potentials { count_said false 2 1 4096 ≡ Ok 4096 }
    ensures above_potentials { count_said false 2 1 4097 ≡ Err (record { kind = CountLimit; line = 1 }) }
    ensures potentials_of_nothing { count_said false 0 1 1 ≡ Err (record { kind = CountLimit; line = 1 }) }
    ensures weight_and_length { cert_of pair (codes "1 1 0 0\n1099511627776\n281474976710656\n0\n")
        ≡ Ok (record (wire_cert 1099511627776 281474976710656 0 0 (0 ∷ [])) { potentials = [] }) }
    ensures value { cert_of pair (codes "1 1 0 1\n1\n1\n0 1152921504606846975\n1\n")
        ≡ Ok (wire_cert 1 1 0 1152921504606846975 (1 ∷ [])) }
    ensures choice { cert_of pair (codes "1 1 0 1\n1\n1\n0 1\n1\n") ≡ Ok (wire_cert 1 1 0 1 (1 ∷ [])) }
{}

/// The code's limits are those of the definitions.
fn the_limits_of_the_code()
    ensures weight { MAX_WEIGHT ≡ 2 ^ 40 }
    ensures length { MAX_LENGTH ≡ 2 ^ 48 }
    ensures unit { MAX_UNIT ≡ 2 ^ 20 }
    ensures potentials { MAX_POTENTIALS ≡ 4096 }
    ensures potential_value { MAX_POTENTIAL_VALUE ≡ 2 ^ 60 - 1 }
    ensures uniform_weight { UNIFORM_WEIGHT ≡ 2 ^ 20 }
{}

/// The sources of nets, each once, and the floor by hops of the star, whose net is two hops deep.
fn sources_and_floors()
    ensures sources { sources_of (record shared { nets = (1 ∷ 0 ∷ []) ∷ (0 ∷ []) ∷ (1 ∷ []) ∷ [] })
        ≡ 1 ∷ 0 ∷ [] }
    ensures floor { hop_floor star (2 ∷ []) ≡ 4 }
    ensures no_group { hop_floor (record star { groups = [] }) (2 ∷ []) ≡ 0 }
    ensures part { part_of 9 2 ≡ 4 }
    ensures no_parts { part_of 9 0 ≡ 0 }
{}

/// The floor by shares of three nets on one wire, in one group and in three: each net's root is that of the
/// uniform weight, 1,024, so the one length is 3,072.
fn floors_by_shares()
    ensures length { uniform_length shared (1 ∷ 1 ∷ 1 ∷ []) ≡ 3072 }
    ensures together { share_floor shared (1 ∷ 1 ∷ 1 ∷ []) ≡ 10 }
    ensures apart { share_floor (record shared { groups = (0 ∷ []) ∷ (1 ∷ []) ∷ (2 ∷ []) ∷ [] })
        (1 ∷ 1 ∷ 1 ∷ []) ≡ 4 }
    ensures no_group { share_floor (record shared { groups = [] }) (1 ∷ 1 ∷ 1 ∷ []) ≡ 0 }
{
    root_is_exact();
}
