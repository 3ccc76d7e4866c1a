ghost use Rattle.std.specs.Prelude.{◌≡◌, pos, ◌≤ℤ◌};
ghost use Rattle.int_laws.specs.Root.{IsRoot, IsRootUp, root_of, root_up_of};

/// The square root of `n` rounded down, for an `n` that isn't negative.
pub fn isqrt(n: i128) -> i128
    requires { pos 0 ≤ℤ n }
    ensures meaning { IsRoot 2 n result }
    ensures value { result ≡ root_of n }
{
    n.isqrt()
}

/// The square root of `n` rounded up, for an `n` that isn't negative.
pub fn isqrt_up(n: i128) -> i128
    requires { pos 0 ≤ℤ n }
    ensures meaning { IsRootUp 2 n result }
    ensures value { result ≡ root_up_of n }
{
    let root = n.isqrt();
    if root * root == n { root } else { root + 1 }
}
