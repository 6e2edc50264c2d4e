//! Laws on ratios, sums and values, which hold by their definitions alone.
ghost use Rattle.tdm_problem.specs.Laws.{TangentLaw, WireSumLaw, ValueLaw, EvenLaw, RootLaw, UsersLaw};

/// Ratios that fit a number of lanes cannot all be small. Give each ratio a price, and a root: a number whose
/// square is at most the price. Then at any length `l` the sum of the prices times the ratios is at least
/// `2 * l` times the sum of the roots, less `l * l` for each lane.
pub fn tangent()
    ensures { TangentLaw }
{}

/// With a weight for each group, the weighted sum of the group sums is the sum, over the wires and the nets
/// on each, of the net's weight times its ratio. It is at most the sum of the weights times the value. A
/// group past the last weight weighs nothing.
pub fn exchange()
    ensures wires { WireSumLaw }
    ensures value { ValueLaw }
{}

/// The value of a legal solution is even.
pub fn even()
    ensures { EvenLaw }
{}

/// The whole square root of a number is the one number whose square is at most that number, and the square
/// of whose successor is above it.
pub fn root_is_exact()
    ensures { RootLaw }
{}

/// The nets on a wire with their ratios have the ratios that are on the wire.
pub fn users_have_the_ratios()
    ensures { UsersLaw }
{}
