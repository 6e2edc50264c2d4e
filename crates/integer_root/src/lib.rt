//! The whole square root of a number.
#![tactic(auto)]

ghost use Rattle.std.specs.Prelude.{◌+◌, ◌*◌, ◌^◌, ◌<◌, ◌≤◌};

/// The greatest `r` with `r * r <= n`.
///
/// Takes no memory. Heron's method, from a power of two that is not below the root: about six divisions.
pub fn isqrt(n: u64) -> u32
    ensures square_at_most { result * result ≤ n }
    ensures next_square_above { n < (result + 1) * (result + 1) }
{
    if n == 0 {
        return 0;
    }
    let mut guess = power_above_root(n);
    let mut closer = mean_with_quotient(n, guess);
    while closer < guess {
        guess = closer;
        closer = mean_with_quotient(n, guess);
    }
    guess as u32
}

/// A power of two that is above the root of `n`.
fn power_above_root(n: u64) -> u64
    requires { 0 < n }
    ensures above { n < result * result }
    ensures positive { 0 < result }
    ensures bound { result ≤ 2 ^ 32 }
{
    1 << (n.ilog2() / 2 + 1)
}

/// The mean of the guess and `n` over the guess, rounded down. It is never below the root, and less than the
/// guess wherever the guess is above the root.
fn mean_with_quotient(n: u64, guess: u64) -> u64
    requires some { 0 < n }
    requires positive { 0 < guess }
    requires bound { guess ≤ 2 ^ 32 }
    requires not_below_root { n < (guess + 1) * (guess + 1) }
    ensures positive { 0 < result }
    ensures not_below_root { n < (result + 1) * (result + 1) }
    ensures root_reached { guess ≤ result → guess * guess ≤ n }
{
    (guess + n / guess) / 2
}

#[cfg(test)]
mod tests {
    use super::isqrt;

    #[test]
    fn rounds_down_to_the_root_of_the_last_square(rt: HostRuntime) {
        for (n, root) in [
            (0, 0),
            (1, 1),
            (15, 3),
            (16, 4),
            (17, 4),
            (u64::MAX, 4294967295),
        ] {
            assert_eq!(rt; isqrt(n), root);
        }
    }
}
