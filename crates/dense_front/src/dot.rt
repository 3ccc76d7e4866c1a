ghost use Rattle.std.specs.Prelude.{◌≡◌, ◌^◌, ◌<◌, ◌≤◌, ◌*ℤ◌, length};
ghost use Rattle.std.specs.Int.RustNames.{unsigned_abs};
ghost use Rattle.dense_front.specs.Square.{AllSmall, dot_of};

// The sum of the products of two rows of up to six factor entries.
pub fn dot(left: &[i64], right: &[i64]) -> i128
    requires few { length left.now ≤ 6 }
    requires same { length right.now ≡ length left.now }
    requires left_small { AllSmall left.now }
    requires right_small { AllSmall right.now }
    ensures value { result ≡ dot_of (length left.now) left.now right.now }
    ensures small { unsigned_abs result < 2 ^ 117 }
{
    let mut sum = 0;
    for k in 0..left.len() {
        sum += product(left[k], right[k]);
    }
    sum
}

fn product(x: i64, y: i64) -> i128
    requires x_small { unsigned_abs x < 2 ^ 57 }
    requires y_small { unsigned_abs y < 2 ^ 57 }
    ensures value { result ≡ x *ℤ y }
    ensures small { unsigned_abs result ≤ 2 ^ 114 }
{
    x as i128 * y as i128
}
