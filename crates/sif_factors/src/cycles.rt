ghost use Rattle.std.specs.Prelude.{◌≡◌, Ok, ◌+◌, ◌*◌, ◌^◌, ◌<◌, ◌≤◌, pos};
ghost use Rattle.flex_interval.specs.Operations.{ends};
ghost use Rattle.sif_factors.specs.Cycles.{power_of_six, EnclosesCycleFactor, factor_down, factor_up, fifth_root_of, cycle_factor_of};

use flex_interval::{Iv, min, point, share};

/// 6^5, in the unit of the fifth powers of numbers in 2^-20.
const POWER_OF_SIX: u128 = 7776 << 100;

/// More than the fifth root of that.
const ROOT_LIMIT: u128 = 6_400_000;

/// The stress range factor `6 N^-0.2` of N cycles, at most `cap` thousandths, in units of 2^-20 (ASME B31.3-2016, 302.3.5(d)).
#[tactic(auto, unfolding(crate::specs::Cycles::cycle_factor_of))]
pub fn cycle_factor(cycles: u64, cap: u32) -> Iv
    requires { 0 < cycles }
    ensures value { cycle_factor_of cycles cap ≡ Ok result }
    ensures encloses { EnclosesCycleFactor cycles cap result }
{
    min(
        uncapped(u128::from(cycles)),
        share(point(i128::from(cap)), 1 << 20, 1000),
    )
}

/// `6 N^-0.2` of N cycles.
fn uncapped(cycles: u128) -> Iv
    requires { 0 < cycles }
    ensures value { result ≡ ends (pos (factor_down cycles)) (pos (factor_up cycles)) }
    ensures lower { factor_down cycles ^ 5 * cycles ≤ power_of_six }
    ensures upper { power_of_six ≤ factor_up cycles ^ 5 * cycles }
{
    let down = fifth_root(POWER_OF_SIX / cycles);
    let up = if down.pow(5) * cycles == POWER_OF_SIX {
        down
    } else {
        down + 1
    };
    Iv {
        lo: down as i128,
        hi: up as i128,
    }
}

/// The fifth root of `n` rounded down, by bisection.
fn fifth_root(n: u128) -> u128
    requires { n ≤ power_of_six }
    ensures value { result ≡ fifth_root_of n }
    ensures at_most { result ^ 5 ≤ n }
    ensures next_above { n < (result + 1) ^ 5 }
    ensures small { result < 6400000 }
{
    let mut down = 0;
    let mut above = ROOT_LIMIT;
    while above - down > 1 {
        let middle = (down + above) / 2;
        if middle.pow(5) <= n {
            down = middle;
        } else {
            above = middle;
        }
    }
    down
}
