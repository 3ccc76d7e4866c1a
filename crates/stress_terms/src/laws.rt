ghost use Rattle.stress_terms.specs.Combined.{WiderStressHolds};
ghost use Rattle.stress_terms.specs.Judgement.{VerdictsHold};

/// What a verdict says of every stress and allowable, by its definition: for ends that no call has made.
pub fn verdicts_hold()
    ensures { VerdictsHold }
{}

/// An interval that encloses a stress still does where it is widened.
pub fn wider_stresses_hold()
    ensures { WiderStressHolds }
{}
