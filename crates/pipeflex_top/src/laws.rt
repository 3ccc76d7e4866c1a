ghost use Rattle.pipeflex_top.specs.Analysis.{ReportExists, ReportIsDetermined};

use accepted_text::acceptance_is_determined;

/// What shows that the definition of a report leaves no choice: a model has one, and the run that writes it one ending.
pub fn report_is_determined()
    ensures { ReportIsDetermined }
{
    acceptance_is_determined();
}

/// What shows that the definition of a report speaks of every accepted text: each has one, with a run's ending.
pub fn report_exists()
    ensures { ReportExists }
{}
