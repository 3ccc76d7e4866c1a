//! Members of a piping model: how far displacements reach along each, the force by its law, and the residual of a row.
#![tactic(auto)]

mod forces;
mod laws;
mod members;
mod residuals;
mod states;

pub use forces::{law_force, reach, reach_between};
pub use laws::{
    faults_stay, intervals_hold, laws_keep_stretch, rest_is_equilibrium, states_select_members,
};
pub use lists::Sequence;
pub use members::{Built, Law, Member, Station};
pub use residuals::{
    FORCE_LIMIT, member_force, member_forces, members_at, residual_from, residual_row, shape,
};
pub use states::{included, state_reach, trial_force, trial_forces};
