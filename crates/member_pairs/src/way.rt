ghost use Rattle.std.specs.Prelude.{◌≡◌, ◌≤◌, pos, ◌-ℤ◌, ◌*ℤ◌, ◌≤ℤ◌};
ghost use Rattle.model_types.specs.Ranges.{IsIn, of_size, NodeInForm};
ghost use Rattle.model_types.specs.Rules.{IsSpan};
ghost use Rattle.member_pairs.specs.Span.{square_of};
ghost use Rattle.member_pairs.specs.Vectors.{way_of, parts_of, IsWay};

use model_types::Node;

/// The way from an element's first node to its second, in micrometres.
#[derive(Clone, Copy)]
pub struct Way {
    pub x: i64,
    pub y: i64,
    pub z: i64,
}

/// The way between two nodes.
pub fn way_between(from: &Node, to: &Node) -> Way
    requires from { NodeInForm from.now }
    requires to { NodeInForm to.now }
    requires span { IsSpan from.now to.now }
    ensures value { result ≡ way_of from.now to.now }
    ensures way { IsWay result }
{
    Way {
        x: to.x - from.x,
        y: to.y - from.y,
        z: to.z - from.z,
    }
}

/// The square of its length, in square micrometres.
pub fn square(way: &Way) -> i128
    requires { IsWay way.now }
    ensures value { result ≡ square_of (parts_of way.now) }
{
    product(way.x) + product(way.y) + product(way.z)
}

fn product(part: i64) -> i128
    requires { IsIn (of_size 30000000) part }
    ensures value { result ≡ part *ℤ part }
    ensures low { pos 0 ≤ℤ result }
    ensures high { result ≤ℤ pos 900000000000000 }
{
    let part = i128::from(part);
    part * part
}
