ghost use Rattle.std.specs.Prelude.{◌≡◌};
ghost use Rattle.case_run.specs.Faults.{build_fault, assemble_fault, scalar_fault};

use assembly::AssembleFault;
use factor::ScalarFault;
use model_types::{Cause, NodeId};
use std::alloc::AllocError;
use structure::BuildFault;

/// Why a case goes no further.
#[derive(Clone, Copy)]
pub(crate) enum CaseFault {
    /// It has no certificate, for this cause.
    Because(Cause),
    /// Memory ran out.
    NoMemory,
}

impl From<AllocError> for CaseFault {
    ghost use Rattle.case_run.specs.declared.fault.CaseFault.{CaseFault};
    ghost use Rattle.case_run.specs.declared.fault.CaseFault.TheVariants as faults;

    ghost from_gives = { λ _ fault. fault ≡ faults.NoMemory };

    fn from(_error: AllocError) -> CaseFault {
        CaseFault::NoMemory
    }
}

impl From<BuildFault> for CaseFault {
    ghost from_gives = { λ error fault. fault ≡ build_fault error };

    fn from(error: BuildFault) -> CaseFault {
        match error {
            BuildFault::Wide(element) => CaseFault::Because(Cause::WidthElement(element)),
            BuildFault::NoMemory => CaseFault::NoMemory,
        }
    }
}

impl From<AssembleFault> for CaseFault {
    ghost from_gives = { λ error fault. fault ≡ assemble_fault error };

    fn from(error: AssembleFault) -> CaseFault {
        match error {
            AssembleFault::Wide { row } => CaseFault::Because(Cause::WidthMatrix {
                node: NodeId(row / 6),
                freedom: row % 6,
            }),
            AssembleFault::NoMemory => CaseFault::NoMemory,
        }
    }
}

impl From<ScalarFault> for CaseFault {
    ghost from_gives = { λ error fault. fault ≡ scalar_fault error };

    fn from(error: ScalarFault) -> CaseFault {
        match error {
            ScalarFault::Pivot { node, dof } => CaseFault::Because(Cause::Pivot {
                node: NodeId(node),
                freedom: dof,
            }),
            ScalarFault::Wide { node } => CaseFault::Because(Cause::WidthFactor(NodeId(node))),
            ScalarFault::NoMemory => CaseFault::NoMemory,
        }
    }
}
