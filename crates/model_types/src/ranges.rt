//! The range of each number of a record.

/// The whole numbers from `least` to `most`.
#[derive(Clone, Copy)]
pub struct Range {
    pub least: i64,
    pub most: i64,
}

/// Young's modulus, in MPa.
pub const MODULUS: Range = Range {
    least: 1,
    most: 1_000_000,
};

/// Poisson's ratio, in thousandths.
pub const POISSON_RATIO: Range = Range {
    least: 0,
    most: 499,
};

/// Thermal expansion, in 10^-9 per kelvin.
pub const EXPANSION: Range = Range {
    least: 0,
    most: 100_000,
};

/// Density, in kg/m^3.
pub const DENSITY: Range = Range {
    least: 0,
    most: 30_000,
};

/// Outside diameter, in micrometres.
pub const DIAMETER: Range = Range {
    least: 1000,
    most: 2_000_000,
};

/// Wall thickness, in micrometres.
pub const WALL: Range = Range {
    least: 100,
    most: 200_000,
};

/// Allowance on the wall, in micrometres.
pub const WALL_ALLOWANCE: Range = Range {
    least: 0,
    most: 200_000,
};

/// Weight of contents and insulation, in mN/m.
pub const EXTRA_WEIGHT: Range = Range {
    least: 0,
    most: 100_000_000,
};

/// Coordinates of a node, in micrometres.
pub const COORDINATE: Range = Range {
    least: -10_000_000_000,
    most: 10_000_000_000,
};

/// Radius of a bend's middle line, in micrometres.
pub const BEND_RADIUS: Range = Range {
    least: 1000,
    most: 15_000_000,
};

/// Coordinates of a bend's corner, in micrometres: all that have at most 18 digits.
pub const CORNER: Range = Range {
    least: -999_999_999_999_999_999,
    most: 999_999_999_999_999_999,
};

/// Thickness of a tee's pad, in micrometres.
pub const PAD_THICKNESS: Range = Range {
    least: 1,
    most: 200_000,
};

/// Coefficient of a tee, in thousandths.
pub const TEE_COEFFICIENT: Range = Range {
    least: 100,
    most: 100_000,
};

/// Stiffness of a restraint, in N/m or N m/rad.
pub const STIFFNESS: Range = Range {
    least: 1,
    most: 2_000_000_000_000,
};

/// Parts of a direction.
pub const DIRECTION_PART: Range = Range {
    least: -1_000_000,
    most: 1_000_000,
};

/// The gap of a one-way support or of a gap, in micrometres.
pub const GAP: Range = Range {
    least: 0,
    most: 1_000_000,
};

/// Load of a hanger upwards, in mN.
pub const HANGER_LOAD: Range = Range {
    least: 0,
    most: 1_000_000_000,
};

/// Acceleration, in thousandths of standard gravity.
pub const ACCELERATION: Range = Range {
    least: -10_000,
    most: 10_000,
};

/// Change of temperature, in millikelvin.
pub const TEMPERATURE_CHANGE: Range = Range {
    least: -1_000_000,
    most: 1_000_000,
};

/// Pressure, in Pa.
pub const PRESSURE: Range = Range {
    least: 0,
    most: 100_000_000,
};

/// Forces and moments, in mN and mN m.
pub const LOAD: Range = Range {
    least: -1_000_000_000_000,
    most: 1_000_000_000_000,
};

/// Parts of an anchor's movement, in micrometres.
pub const MOVEMENT: Range = Range {
    least: -1_000_000,
    most: 1_000_000,
};

/// Allowable stress of a check, in kPa.
pub const ALLOWABLE_STRESS: Range = Range {
    least: 1,
    most: 2_000_000,
};

/// The share of the allowable stress that an occasional check allows, in percent.
pub const OCCASIONAL_PERCENT: Range = Range {
    least: 100,
    most: 200,
};

/// Cycles of an expansion check.
pub const CYCLES: Range = Range {
    least: 1,
    most: 1_000_000_000,
};

/// The most that the cycle factor of an expansion check may be, in thousandths.
pub const CYCLE_FACTOR: Range = Range {
    least: 100,
    most: 1200,
};

/// How many restraints may be one-way supports or gaps.
pub const MOST_STOPS: usize = 1000;

/// The most that the ends of an element may lie apart, in micrometres.
pub const LONGEST: u128 = 30_000_000;

/// The most that a coordinate of a bend's corner may differ from that of the bend's first node, in micrometres.
pub const FARTHEST_CORNER: u64 = 100_000_000;
