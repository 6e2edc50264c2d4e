//! The shares of a few numbers, computed.
ghost use Rattle.std.specs.Prelude.{◌≡◌, [], ◌∷◌};
ghost use Rattle.ratio_shares.specs.Shares.{least_claim, claim_in, claims_of, share_for, shares_of};

/// A number claims itself, and at least 1 and a 1024th of the largest.
fn small_numbers_claim_more()
    ensures least { least_claim (0 ∷ 2049 ∷ []) ≡ 3 }
    ensures one { least_claim (0 ∷ 0 ∷ []) ≡ 1 }
    ensures itself { claim_in (0 ∷ 2048 ∷ []) 2048 ≡ 2048 }
    ensures raised { claim_in (0 ∷ 2048 ∷ []) 0 ≡ 2 }
    ensures all { claims_of (0 ∷ 2048 ∷ []) ≡ 2050 }
{}

/// Shares are in proportion to the claims, and rounded down.
fn shares_are_in_proportion()
    ensures half { share_for 10 1 5 ≡ 9223372036854775808 }
    ensures three_alike { shares_of (1024 ∷ 1024 ∷ 1024 ∷ []) 1
        ≡ 6148914691236517205 ∷ 6148914691236517205 ∷ 6148914691236517205 ∷ [] }
    ensures raised { shares_of (0 ∷ 2048 ∷ []) 1
        ≡ 17996823486545904 ∷ 18428747250223005711 ∷ [] }
    ensures two_lanes { shares_of (1 ∷ 3 ∷ []) 2
        ≡ 9223372036854775808 ∷ 27670116110564327424 ∷ [] }
{}
