ghost use Rattle.flex_interval.specs.Inclusion.{SumHolds, DifferenceHolds, ProductHolds};

/// What the answers of the operations enclose, by their definitions: for an interval that no call has made.
pub fn operations_hold()
    ensures sums { SumHolds }
    ensures differences { DifferenceHolds }
    ensures products { ProductHolds }
{}
