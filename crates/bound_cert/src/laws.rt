//! Laws on certificates and their bounds, which hold by the definitions alone.
ghost use Rattle.bound_cert.specs.Laws.{SpreadLaw, LeastEvenLaw, DualBoundLaw, OneBoundLaw, SomeBoundLaw, ChosenBoundLaw};
ghost use Rattle.bound_cert.specs.Growth.{GrowthLaw, OneGrowthLaw, SomeGrowthLaw};

/// Where a potential rises along no wire, either way, by more than the wire's length, wires that join FPGAs
/// are together at least as long as the potential's largest value at these less its least.
pub fn spread()
    ensures { SpreadLaw }
{}

/// Where the divisor is positive, the bound is even and, times the divisor, reaches the demand; no smaller
/// even number does.
pub fn bound_is_least()
    ensures { LeastEvenLaw }
{}

/// The dual bound: no legal solution has a value below the bound of a valid certificate, of either kind,
/// whether its nets are spread by their choices or by their growth.
pub fn dual_bound()
    ensures { DualBoundLaw }
{}

/// A certificate has one bound and no other; that of one by choices is what they come to.
pub fn bound_is_one()
    ensures one { OneBoundLaw }
    ensures some { SomeBoundLaw }
    ensures chosen { ChosenBoundLaw }
{}

/// What joins FPGAs is at least as long as these grow: each in turn, but the first, until it reaches one that
/// has not grown, over what the others have left of each wire's length in each direction. Source: the ascent
/// on directed cuts (Wong, 1984). They grow by one number and no other.
pub fn growth_is_short()
    ensures short { GrowthLaw }
    ensures one { OneGrowthLaw }
    ensures some { SomeGrowthLaw }
{}
