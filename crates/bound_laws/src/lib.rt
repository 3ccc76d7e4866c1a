//! The laws of definiteness and of certified bounds: that every matrix within its radii that passes the verified Cholesky test
//! is positive definite, and how near every equilibrium therefore is to given displacements.
#![tactic(auto)]

ghost use Rattle.bound_laws.specs.Definiteness.{PassedTestIsProof};
ghost use Rattle.bound_laws.specs.Nearness.{StiffnessMatrixExists, EquilibriaAreNear, NearIsEnclosed, SizesGiveLength, RootIsLength, RoundedRadiiAreEnough, RadiiAreNotNegative};

/// The law of the verified Cholesky test, for every interval matrix, factor and shift.
pub fn passed_test_is_proof()
    ensures { PassedTestIsProof }
{}

/// The law of certified bounds: every stiffness has a matrix; where that is definite with lambda, in units of 2^-20 N/m,
/// every equilibrium is near to any displacements; what is near is within the radii, in units of 2^-56 m or rad and of
/// 2^-40 N or N m; and a length and radii that are rounded up are enough, and not negative. Of a member's law it rests on one
/// property alone, which every law keeps: how much of a change of reach counts.
pub fn equilibria_are_near()
    ensures matrix { StiffnessMatrixExists }
    ensures near { EquilibriaAreNear }
    ensures enclosed { NearIsEnclosed }
    ensures length { SizesGiveLength }
    ensures root { RootIsLength }
    ensures radii { RoundedRadiiAreEnough }
    ensures not_negative { RadiiAreNotNegative }
{
    member_set::laws_keep_stretch();
}
