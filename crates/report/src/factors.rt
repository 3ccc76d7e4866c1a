ghost use Rattle.std.specs.Prelude.{◌≡◌, ◌++◌, pos, ◌<ℤ◌, OnErr, OnOk};
ghost use Rattle.std.specs.Io.{StartsWith};
ghost use Rattle.std.specs.List.{flat_map};
ghost use Rattle.report.specs.Factors.{FactorsAreTold, TeeIsTold, factor_lines, factor_words, index_words, named_pair, tee_lines, tee_words};
ghost use Rattle.model_types.specs.Ranges.{TeeInForm};
ghost use Rattle.report.specs.Words.{spaced};
ghost use Rattle.sif_factors.specs.Characteristic.{HasBore, IsBendRadius};
ghost use Rattle.sif_factors.specs.Factors.{AreFactors, IsFactor, bend_factors_of, tee_factors_of};
ghost use Rattle.text_words.specs.Fields.{line};

use crate::rounding::{FLEXIBILITY_UNITS, INDEX_UNITS, MILLION};
use crate::rows::push_pair;
use crate::words::push_word;
use flex_interval::Iv;
use model_types::{Bounds, NoMemory, Section, TeeKind};
use sif_factors::{Factors, bend_factors, tee_factors};

/// Writes the line of the factors of a bend of radius `r` in micrometres: the flexibility factor k, and the stress
/// intensification factors in plane and out of plane, each in millionths and rounded outwards (ASME B31.3-2016, Appendix D).
pub fn push_factors(out: &mut Vec<u8>, section: &Section, r: i64) -> Result<(), NoMemory>
    requires section { HasBore section.now }
    requires radius { IsBendRadius section.now r }
    ensures written { OnOk result (out.new.items ≡ out.old.items ++ flat_map line (factor_lines (bend_factors_of section.now r))) }
    ensures told { FactorsAreTold section.now r }
    ensures kept { OnErr result (StartsWith out.new.items out.old.items) }
{
    let factors = bend_factors(section, r);
    push_factor_line(out, &factors)
}

fn push_factor_line(out: &mut Vec<u8>, factors: &Factors) -> Result<(), NoMemory>
    requires { AreFactors factors.now }
    ensures written { OnOk result (out.new.items ≡ out.old.items ++ line (factor_words factors.now)) }
    ensures kept { OnErr result (StartsWith out.new.items out.old.items) }
{
    out.extend_from_slice(b"factor")?;
    push_factor(out, b"k", factors.k, FLEXIBILITY_UNITS)?;
    push_indices(out, factors)?;
    out.push(b'\n')?;
    Ok(())
}

/// Writes the line of a tee: the name of its node, and the stress intensification factors in plane and out of plane, each in
/// millionths and rounded outwards (ASME B31.3-2016, Appendix D).
pub fn push_tee_factors(
    out: &mut Vec<u8>,
    node: &[u8],
    header: &Section,
    kind: TeeKind,
) -> Result<(), NoMemory>
    requires section { HasBore header.now }
    requires kind { TeeInForm kind }
    ensures written { OnOk result (out.new.items ≡ out.old.items ++ flat_map line (tee_lines node.now (tee_factors_of header.now kind))) }
    ensures told { TeeIsTold header.now kind }
    ensures kept { OnErr result (StartsWith out.new.items out.old.items) }
{
    let factors = tee_factors(header, kind);
    push_tee_line(out, node, &factors)
}

fn push_tee_line(out: &mut Vec<u8>, node: &[u8], factors: &Factors) -> Result<(), NoMemory>
    requires { AreFactors factors.now }
    ensures written { OnOk result (out.new.items ≡ out.old.items ++ line (tee_words node.now factors.now)) }
    ensures kept { OnErr result (StartsWith out.new.items out.old.items) }
{
    out.extend_from_slice(b"tee")?;
    push_word(out, node)?;
    push_indices(out, factors)?;
    out.push(b'\n')?;
    Ok(())
}

// Writes the names of the stress intensification factors in plane and out of plane, each with its pair.
fn push_indices(out: &mut Vec<u8>, factors: &Factors) -> Result<(), NoMemory>
    requires { AreFactors factors.now }
    ensures written { OnOk result (out.new.items ≡ out.old.items ++ spaced (index_words factors.now)) }
    ensures kept { OnErr result (StartsWith out.new.items out.old.items) }
{
    push_factor(out, b"ii", factors.ii, INDEX_UNITS)?;
    push_factor(out, b"io", factors.io, INDEX_UNITS)?;
    Ok(())
}

// Writes the name of a factor in units of `1 / unit`, and its pair.
fn push_factor(out: &mut Vec<u8>, name: &[u8], factor: Iv, unit: i128) -> Result<(), NoMemory>
    requires factor { IsFactor factor }
    requires unit { pos 0 <ℤ unit }
    ensures written { OnOk result (out.new.items ≡ out.old.items ++ spaced (named_pair name.now unit factor)) }
    ensures kept { OnErr result (StartsWith out.new.items out.old.items) }
{
    prove!(factor.lo <= factor.hi);
    let bounds = Bounds {
        lo: factor.lo,
        hi: factor.hi,
    };
    push_word(out, name)?;
    push_pair(out, &bounds, MILLION, unit)?;
    Ok(())
}
