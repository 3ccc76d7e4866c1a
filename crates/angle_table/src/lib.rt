//! Enclosures of pi, and of the half angles of bends with their sines and cosines.
#![tactic(auto)]

ghost use Rattle.std.specs.Prelude.{◌≡◌, ◌*◌, ◌^◌, pos};
ghost use Rattle.int_laws.specs.Division.{floor_of, ceil_of};
ghost use Rattle.flex_interval.specs.Fraction.{Fraction, Within, scaled};
ghost use Rattle.angle_table.specs.HalfAngle.{SinesAreSines};
ghost use Rattle.angle_table.specs.Pi.{pi_ends, IsPi};

mod angle;
mod table;

pub use angle::Half;
use flex_interval::Iv;
pub use table::half;

/// Pi, in units of 2^-56.
pub fn pi() -> Iv
    ensures value { result ≡ pi_ends }
    ensures lo { result.lo ≡ floor_of (pos (314159265358979323846 * 2 ^ 56)) (pos (10 ^ 20)) }
    ensures hi { result.hi ≡ ceil_of (pos (314159265358979323847 * 2 ^ 56)) (pos (10 ^ 20)) }
    ensures within { (x : Fraction) → IsPi x → Within result (scaled x (pos (2 ^ 56)) (pos 1)) }
{
    Iv {
        lo: 226_375_608_064_910_088,
        hi: 226_375_608_064_910_089,
    }
}

/// The law of the table's sines: each interval has its ends in order, from 0 to 1.
pub fn sines_are_sines()
    ensures { SinesAreSines }
{}
