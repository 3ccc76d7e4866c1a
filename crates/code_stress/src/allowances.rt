ghost use Rattle.std.specs.Prelude.{◌≡◌, All, IfOk, IfSome, Some};
ghost use Rattle.code_stress.specs.Allowable.{IsPercent};
ghost use Rattle.code_stress.specs.Allowances.{percent_or_default, judged_stress, stress_in, sustained_stress, allowable_of};
ghost use Rattle.code_stress.specs.Meaning.{AllowableLiesIn};
ghost use Rattle.code_stress.specs.Rules.{NumbersFit, StationInOrder, CheckInOrder, IsFactorOf};

use crate::allowable::{expansion_allowable, occasional_allowable, sustained_allowable};
use flex_interval::{Iv, IvFault, point};
use model_types::{CheckAnswer, CheckId, CheckKind, StationAnswer};
use sif_factors::cycle_factor;

/// The percentage of SH that an occasional stress may have where the check gives none (ASME B31.3-2016, 302.3.6).
const PERCENT: i64 = 133;

/// The stress range factor of an expansion check, in units of 2^-20; 1 for another.
pub(crate) fn stress_range_factor(kind: &CheckKind) -> Iv
    requires { NumbersFit kind.now }
    ensures { IsFactorOf kind.now result }
{
    match *kind {
        CheckKind::Expansion { cycles, fm, .. } => {
            cycle_factor(cycles.unsigned_abs(), fm.unsigned_abs() as u32)
        }
        _ => point(1 << 20),
    }
}

/// The allowable of a check at a station, in units of 2^-16 Pa, by the stress range factor of the check and the answers of the
/// checks before it. `Wide` where a product leaves the limit.
pub(crate) fn allowable(
    kind: &CheckKind,
    factor: Iv,
    earlier: &[CheckAnswer],
    station: usize,
) -> Result<Iv, IvFault>
    requires kind { NumbersFit kind.now }
    requires factor { IsFactorOf kind.now factor }
    requires earlier { All CheckInOrder earlier.now }
    ensures value { result ≡ allowable_of earlier.now kind.now station }
    ensures holds { IfOk result (AllowableLiesIn earlier.now kind.now station) }
{
    match *kind {
        CheckKind::Sustained { sh, .. } => Ok(sustained_allowable(sh)),
        CheckKind::Occasional { sh, percent, .. } => {
            Ok(occasional_allowable(sh, percent_or_default(percent)))
        }
        CheckKind::Expansion { sc, sh, sus, .. } => {
            expansion_allowable(factor, sc, sh, sustained_stress(earlier, sus, station))
        }
    }
}

fn percent_or_default(percent: Option<i64>) -> i64
    requires { IfSome percent IsPercent }
    ensures value { result ≡ percent_or_default percent }
    ensures form { IsPercent result }
{
    match percent {
        Some(percent) => percent,
        None => PERCENT,
    }
}

/// The sustained stress of a station by the check that an expansion check names, where it is judged.
fn sustained_stress(earlier: &[CheckAnswer], check: Option<CheckId>, station: usize) -> Option<Iv>
    requires { All CheckInOrder earlier.now }
    ensures { result ≡ sustained_stress earlier.now check station }
{
    stress_in(earlier.get(check?.0 as usize)?, station)
}

/// The stress that is judged at a station, where one is.
fn stress_in(answer: &CheckAnswer, station: usize) -> Option<Iv>
    requires { CheckInOrder answer.now }
    ensures { result ≡ stress_in (Some answer.now) station }
{
    match answer {
        CheckAnswer::Stations(answers) => judged_stress(answers.as_slice().get(station)?),
        CheckAnswer::Unchecked(_case) => None,
    }
}

fn judged_stress(answer: &StationAnswer) -> Option<Iv>
    requires { StationInOrder answer.now }
    ensures { result ≡ judged_stress (Some answer.now) }
{
    match *answer {
        StationAnswer::Judged { stress, .. } => Some(Iv {
            lo: stress.lo,
            hi: stress.hi,
        }),
        StationAnswer::Wide => None,
    }
}
