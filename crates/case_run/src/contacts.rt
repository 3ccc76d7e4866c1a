ghost use Rattle.std.specs.Prelude.{◌≡◌, ◌+◌, ◌<◌, ◌++◌, ◌^◌, length, replicate, map, IfOk, OnOk};
ghost use Rattle.case_run.specs.Contacts.{contact, kind_contacts, contacts_of, contact_cause};

use model_types::{Cause, Model, Restraint, RestraintId};
use restraint_law::{starts_closed, state_count};
use std::alloc::{AllocError, Global};

/// A member of a restraint that holds one way, and is open or closed.
#[derive(Clone, Copy)]
pub(crate) struct Contact {
    /// Its restraint.
    pub(crate) restraint: RestraintId,
    /// Whether it holds against the restraint's direction.
    pub(crate) minus: bool,
    /// Whether it touches before anything moves.
    pub(crate) closed: bool,
}

/// The contacts of a model, one for each state number.
pub(crate) fn contacts_of(alloc: Global, m: &Model) -> Result<Vec<Contact>, AllocError>
    ensures { IfOk result (λ contacts. contacts.items ≡ contacts_of m.now) }
{
    let restraints = m.restraints();
    let mut contacts = Vec::new(alloc);
    for number in 0..restraints.len() {
        push_contacts(
            &mut contacts,
            RestraintId(number as u32),
            &restraints[number],
        )?;
    }
    Ok(contacts)
}

/// Appends the contacts of a restraint.
fn push_contacts(
    contacts: &mut Vec<Contact>,
    restraint: RestraintId,
    r: &Restraint,
) -> Result<(), AllocError>
    ensures { OnOk result (contacts.new.items ≡ contacts.old.items ++ kind_contacts restraint.0 r.now.kind) }
{
    for part in 0..r.kind.member_count() as u32 {
        let contact = Contact {
            restraint,
            minus: part > 0,
            closed: starts_closed(r, part),
        };
        push_repeated(contacts, contact, state_count(r, part))?;
    }
    Ok(())
}

/// Appends a contact so many times.
fn push_repeated(
    contacts: &mut Vec<Contact>,
    contact: Contact,
    count: u32,
) -> Result<(), AllocError>
    ensures { OnOk result (contacts.new.items ≡ contacts.old.items ++ replicate count contact) }
{
    for _step in 0..count {
        contacts.push(contact)?;
    }
    Ok(())
}

/// The states from which the searches of a model's cases start, one for each contact.
pub(crate) fn starting_states(alloc: Global, contacts: &[Contact]) -> Result<Vec<bool>, AllocError>
    ensures { IfOk result (λ states. states.items ≡ map (λ c. c.closed) contacts.now) }
{
    contacts.iter().map(|c| c.closed).collect(alloc)
}

/// The cause that a contact is on neither side of its gap.
pub(crate) fn contact_cause(c: &Contact) -> Cause
    ensures { result ≡ contact_cause c.now }
{
    Cause::State {
        restraint: c.restraint,
        minus: c.minus,
    }
}
