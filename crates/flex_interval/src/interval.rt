ghost use Rattle.std.specs.Prelude.{◌≡◌, ◌^◌, ◌<◌, ℤ, unsigned_abs};
ghost use Rattle.flex_interval.specs.Ends.{Ends, IsInterval};
ghost use Rattle.flex_interval.specs.Fraction.{Within, whole};
ghost use Rattle.flex_interval.specs.Operations.{point_of};

use std::marker::Model;

/// An interval of whole numbers, `lo` to `hi`. Both ends are below 2^126 in size.
#[derive(Clone, Copy, PartialEq, Eq)]
pub struct Iv {
    pub lo: i128,
    pub hi: i128,
}

impl Model for Iv {
    ghost Value = { Ends };

    ghost view = { λ a. record { lo = a.lo; hi = a.hi } };

    ghost invariant = { λ a. IsInterval (record { lo = a.lo; hi = a.hi }) };

    ghost inverse = { λ e. record { lo = e.lo; hi = e.hi } };
}

/// The interval of `v` alone.
#[tactic(auto, unfolding(crate::specs::Fraction::whole))]
pub fn point(v: i128) -> Iv
    requires { unsigned_abs v < 2 ^ 126 }
    ensures value { result ≡ point_of v }
    ensures within { Within result (whole v) }
{
    Iv { lo: v, hi: v }
}
