ghost use Rattle.std.specs.Prelude.{◌*ℤ◌, SomeIff, FitsSigned};
ghost use Rattle.std.specs.Int.{w128};

/// The product of `a` and `b`; `None` exactly where it leaves `i128`.
pub fn mul(a: i128, b: i128) -> Option<i128>
    ensures { SomeIff result (FitsSigned w128 (a *ℤ b)) (a *ℤ b) }
{
    a.checked_mul(b)
}
