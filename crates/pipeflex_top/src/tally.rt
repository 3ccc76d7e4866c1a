//! How many cases of a report have a certificate.
ghost use Rattle.std.specs.Prelude.{◌≡◌, ◌≤◌, length};
ghost use Rattle.pipeflex_top.specs.Analysis as told;

use model_types::CaseAnswer;

/// How many cases have a certificate, and how many have none.
#[derive(Clone, Copy)]
pub struct Tally {
    pub certified: u32,
    pub uncertified: u32,
}

/// The tally of these answers.
pub fn tally_of(answers: &[CaseAnswer]) -> Tally
    requires { length answers.now ≤ 32 }
    ensures certified { result.certified ≡ told.certified_count answers.now }
    ensures uncertified { result.uncertified ≡ told.uncertified_count answers.now }
{
    let (mut certified, mut uncertified) = (0, 0);
    for answer in answers {
        if is_certified(answer) {
            certified += 1;
        } else {
            uncertified += 1;
        }
    }
    Tally {
        certified,
        uncertified,
    }
}

fn is_certified(answer: &CaseAnswer) -> bool
    ensures { result ≡ told.is_certified answer.now }
{
    matches!(answer, CaseAnswer::Certified { .. })
}
