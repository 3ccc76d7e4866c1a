ghost use Rattle.bend_element.specs.Arc.{PatternsWorkApart};
ghost use Rattle.bend_element.specs.Between.{BendSpansAreCurves};
ghost use Rattle.bend_element.specs.EndLoads.{MembersBalance, MembersCarryLoad, MembersGiveAsArc};
ghost use Rattle.bend_element.specs.Normal.{WaysCross};

/// Of Castigliano's theorem along a bend's arc: no two of the six patterns of load work on each other, each gives by the
/// flexibility of its member, and the elastic centres lie where the patterns have them.
pub fn patterns_work_apart()
    ensures { PatternsWorkApart }
{}

/// The six members of a bend are its arc: each is in balance at its two ends, what they carry of a load at TO is that load, and
/// the flexibility of the end that they add up to is the arc's, entry by entry.
pub fn members_are_arc()
    ensures balance { MembersBalance }
    ensures carry { MembersCarryLoad }
    ensures give { MembersGiveAsArc }
{}

/// A bend that keeps the rule of its record runs along a curve: its radius has room for the pipe, and its corner is near and lies off
/// the line of its chord.
pub fn bend_spans_are_curves()
    ensures { BendSpansAreCurves }
{}

/// Two ways that aren't parallel cross in a vector that isn't 0.
pub fn ways_cross()
    ensures { WaysCross }
{}
