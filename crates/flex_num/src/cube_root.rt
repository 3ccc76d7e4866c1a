ghost use Rattle.std.specs.Prelude.{◌≡◌, ◌+◌, ◌*◌, ◌^◌, ◌<◌, ◌≤◌, pos, ◌≤ℤ◌};
ghost use Rattle.int_laws.specs.Root.{IsRoot, IsRootUp, cube_root_of, cube_root_up_of};

/// The cube root of `n` rounded down, for an `n` that isn't negative.
pub fn icbrt(n: i128) -> i128
    requires { pos 0 ≤ℤ n }
    ensures meaning { IsRoot 3 n result }
    ensures value { result ≡ cube_root_of n }
{
    cube_root(n as u128) as i128
}

/// The cube root of `n` rounded up, for an `n` that isn't negative.
pub fn icbrt_up(n: i128) -> i128
    requires { pos 0 ≤ℤ n }
    ensures meaning { IsRootUp 3 n result }
    ensures value { result ≡ cube_root_up_of n }
{
    let size = n as u128;
    let root = cube_root(size);
    if root * root * root == size {
        root as i128
    } else {
        (root + 1) as i128
    }
}

/// The cube root of `n` rounded down, by Newton's iteration from above.
fn cube_root(n: u128) -> u128
    requires { n < 2 ^ 127 }
    ensures at_most { result * result * result ≤ n }
    ensures next_above { n < (result + 1) * (result + 1) * (result + 1) }
    ensures small { result ≤ 2 ^ 43 }
{
    if n == 0 {
        return 0;
    }
    let mut root = power_above(n);
    let mut next = improved(n, root);
    while next < root {
        root = next;
        next = improved(n, root);
    }
    root
}

/// A power of two above the cube root of `n`.
fn power_above(n: u128) -> u128
    requires low { 0 < n }
    requires high { n < 2 ^ 127 }
    ensures positive { 0 < result }
    ensures small { result ≤ 2 ^ 43 }
    ensures above { n < (result + 1) * (result + 1) * (result + 1) }
{
    1 << (n.ilog2() / 3 + 1)
}

/// Newton's next estimate of the cube root of `n`: it is never below the root rounded down, and below `root` unless `root` is that.
fn improved(n: u128, root: u128) -> u128
    requires low { 0 < n }
    requires high { n < 2 ^ 127 }
    requires positive { 0 < root }
    requires small { root ≤ 2 ^ 43 }
    ensures positive { 0 < result }
    ensures above { n < (result + 1) * (result + 1) * (result + 1) }
    ensures done { root ≤ result → root * root * root ≤ n }
{
    (2 * root + n / root / root) / 3
}
