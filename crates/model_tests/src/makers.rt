//! Models of text, and what the calls under test require of them.
ghost use Rattle.std.specs.Prelude.{◌<◌, length};

use accepted_text::accept;
use case_run::runs;
use model_text::read;
use model_types::{CaseAnswer, Model};
use std::alloc::Global;
use std::process::Abort;

// A tube of steel.
const TUBE: &str = "pipeflex 1
material st 200000 300 12000 7850
section s st 100000 10000 0 0
";

// The text of a tube and of further lines.
fn text_of(rt: &impl Abort, alloc: Global, lines: &[&str]) -> String {
    let mut text = TUBE.to_string(alloc).expect(rt, "memory");
    for line in lines {
        text.push_str(line).expect(rt, "memory");
    }
    text
}

// The model of a tube and of further lines.
pub(crate) fn model(rt: &impl Abort, alloc: Global, lines: &[&str]) -> Model {
    let text = text_of(rt, alloc, lines);
    read(alloc, text.as_bytes()).expect(rt, "a model")
}

// The answers of the cases of such a model.
pub(crate) fn answers_of(rt: &impl Abort, alloc: Global, lines: &[&str]) -> Vec<CaseAnswer> {
    let text = text_of(rt, alloc, lines);
    let accepted = accept(alloc, text.as_bytes()).expect(rt, "a model and its tree");
    runs(alloc, &accepted.model, &accepted.tree)
        .expect(rt, "memory")
        .answers
}

// The model has the case.
pub(crate) fn check_case(rt: &impl Abort, m: &Model, case: usize)
    ensures { case < length m.now.cases }
{
    assert!(rt; case < m.cases().len());
}
