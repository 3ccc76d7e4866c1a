//! What a command makes.
ghost use Rattle.std.specs.Prelude.{◌≡◌, List};
ghost use Rattle.model_types.specs.declared.answers.CaseAnswer.{CaseAnswer};
ghost use Rattle.pipeflex_top.specs.Analysis.{EndsWith, uncertified_count};

use flex_io::Status;

/// What is to be written, and how the run ends that has written it.
#[derive(Drop)]
pub struct Written {
    pub bytes: Vec<u8>,
    pub status: Status,
}

/// How a run ends that has told of a report in which so many cases have no certificate.
pub fn ending(uncertified: u32) -> Status
    ensures { (answers : List CaseAnswer) → uncertified ≡ uncertified_count answers → EndsWith answers result }
{
    if uncertified == 0 {
        Status::Done
    } else {
        Status::Uncertified
    }
}
