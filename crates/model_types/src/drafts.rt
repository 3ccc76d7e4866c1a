//! A model in the making: records come one by one, and each is judged against those before it.
ghost use Rattle.std.specs.Prelude.{◌≡◌, ◌≢◌, ◌↔◌, ℕ, length, [], Some, None, Err, IsNone, IfSome, OnOk, OnErr, IsErr, IfOk, IfErr, Contains, slice_get};
ghost use Rattle.model_types.specs.Lists.{names_in, record_number, no_records, added};
ghost use Rattle.model_types.specs.Ranges.{InForm};
ghost use Rattle.model_types.specs.Rules.{KeepsRules, MayBeNext, IsModel};
ghost use Rattle.model_types.specs.Refusals as refused;
ghost use Rattle.model_types.specs.Tees.{broken_tee};

use crate::NoMemory;
use crate::answers::Bounds;
use crate::faults::{AddFault, WholeFault};
use crate::ids::Space;
use crate::models::Model;
use crate::record_lists::RecordLists;
use crate::records::Record;
use std::alloc::Global;
use text_words::Name;

/// The records of a model that is being made. Each keeps the rules against those before it.
#[derive(Drop)]
pub struct Draft {
    lists: RecordLists,
}

impl std::marker::Model for Draft {
    ghost use Rattle.model_types.specs.Lists.{Lists};

    ghost Value = { Lists };

    ghost use Rattle.model_types.specs.Rules.{KeepsRules};

    ghost view = { λ d. d.lists };

    ghost invariant = { λ d. KeepsRules d.lists };
}

impl Draft {
    /// A draft with no record.
    pub fn new(alloc: Global) -> Result<Draft, NoMemory>
        ensures { IfOk result (λ draft. draft ≡ no_records) }
    {
        let lists = RecordLists::new(alloc);
        Ok(Draft { lists })
    }

    /// The number of the record of that name in that space, or `None` where the space has no such name.
    pub fn find(&self, space: Space, name: &Name) -> Option<u32>
        ensures number { result ≡ record_number self.now space name.now }
        ensures absent { IsNone result ↔ ¬ (Contains (names_in self.now space) name.now) }
        ensures there { IfSome result (λ number. slice_get (names_in self.now space) number ≡ Some name.now) }
    {
        self.lists.look_up(space, name)
    }

    /// How many names a space has.
    pub fn count(&self, space: Space) -> usize
        ensures { result ≡ length (names_in self.now space) }
    {
        self.lists.names(space)
    }

    /// Adds a record, the next in the text, or refuses it by the first rule that it breaks. A name that isn't there is handed in
    /// as the number 4294967295. For a bend `sine` has the ends of the sine of half its angle, in units of 2^-56; for any other record it
    /// isn't looked at.
    /// Any fault leaves the draft as it was.
    pub fn add(&mut self, candidate: Record, sine: Bounds) -> Result<(), AddFault>
        requires form { InForm candidate }
        requires sine { refused.IsSineFor candidate sine }

        ensures ok { OnOk result (self.new ≡ added self.old candidate) }
        ensures accepted { OnOk result (refused.refusal self.old candidate ≡ None) }
        ensures refused { (number : ℕ) → (result ≡ Err (AddFault.Refused number)) ↔ (refused.refusal self.old candidate ≡ Some number) }
        ensures unchanged { OnErr result (self.new ≡ self.old) }

        // A record is added only where it may be the next: it keeps its rule, its key is new and there is room. It is refused only where the
        // model with it would break a rule.
        ensures rules { KeepsRules self.new }
        ensures next { OnOk result (MayBeNext self.old candidate) }
        ensures needed { (number : ℕ) → result ≡ Err (AddFault.Refused number) → ¬ (KeepsRules (added self.old candidate)) }
    {
        if let Some(number) = self.lists.refusal(&candidate, sine) {
            return Err(AddFault::Refused(number));
        }
        self.lists.append(candidate)?;
        Ok(())
    }

    /// The model of the records, unless there is no node, or the elements at the node of some tee don't make it: the fault has the
    /// number of the first such tee.
    pub fn finish(self) -> Result<Model, WholeFault>
        ensures model { IfOk result (λ model. model ≡ self) }
        ensures rules { OnOk result (IsModel self) }
        ensures made { OnOk result (broken_tee self ≡ None) }
        ensures missing { (result ≡ Err WholeFault.Missing) ↔ (self.nodes ≡ []) }
        ensures tee { (number : ℕ) → (result ≡ Err (WholeFault.Tee number)) ↔ ((self.nodes ≢ []) × (broken_tee self ≡ Some number)) }
    {
        if self.count(Space::Node) == 0 {
            drop(self);
            return Err(WholeFault::Missing);
        }
        if let Some(number) = self.broken_tee() {
            drop(self);
            return Err(WholeFault::Tee(number));
        }
        Ok(self.into_model())
    }

    // The number of the first tee that the elements at its node don't make.
    fn broken_tee(&self) -> Option<u32>
        ensures { result ≡ broken_tee self.now }
    {
        self.lists.broken_tee()
    }

    // The model of records among which there is a node, and whose tees are made.
    fn into_model(self) -> Model
        requires some { self.nodes ≢ [] }
        requires tees { broken_tee self ≡ None }
        ensures model { result ≡ self }
        ensures rules { IsModel self }
    {
        self.lists.into_model()
    }
}
