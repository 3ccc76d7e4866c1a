ghost use Rattle.std.specs.Prelude.{◌≡◌, ◌≤◌, ◌+◌, ◌*◌, ◌++◌, OnOk};
ghost use Rattle.std.specs.Fmt.{decimal};
ghost use Rattle.model_gen.specs.Text.{east, north, rows, words};
ghost use Rattle.text_words.specs.Fields.{line};

use itoa::Buffer;
use model_types::NoMemory;

/// The records of which a generated model has many.
#[derive(Clone, Copy)]
pub(crate) enum Row {
    Node,
    Straight,
    Anchor,
    Support,
}

/// Writes so many lines of a kind, from number 0 on.
pub(crate) fn push_rows(out: &mut Vec<u8>, row: Row, count: u32) -> Result<(), NoMemory>
    requires { count ≤ 1601 }
    ensures { OnOk result (out.new.items ≡ out.old.items ++ rows row count) }
{
    for i in 0..count {
        push_row(out, row, i)?;
    }
    Ok(())
}

fn push_row(out: &mut Vec<u8>, row: Row, i: u32) -> Result<(), NoMemory>
    requires { i ≤ 1600 }
    ensures { OnOk result (out.new.items ≡ out.old.items ++ line (words row i)) }
{
    match row {
        Row::Node => push_node(out, i),
        Row::Straight => push_straight(out, i),
        Row::Anchor => push_anchor(out, i),
        Row::Support => push_support(out, i),
    }
}

fn push_node(out: &mut Vec<u8>, i: u32) -> Result<(), NoMemory>
    requires { i ≤ 1600 }
    ensures { OnOk result (out.new.items ≡ out.old.items ++ line (words Row.Node i)) }
{
    push_numbered(out, b"node p", i)?;
    push_numbered(out, b" ", east(i))?;
    push_numbered(out, b" ", north(i))?;
    out.extend_from_slice(b" 0\n")?;
    Ok(())
}

fn push_straight(out: &mut Vec<u8>, i: u32) -> Result<(), NoMemory>
    requires { i ≤ 1600 }
    ensures { OnOk result (out.new.items ≡ out.old.items ++ line (words Row.Straight i)) }
{
    push_numbered(out, b"straight e", i)?;
    push_numbered(out, b" p", i)?;
    push_numbered(out, b" p", i + 1)?;
    out.extend_from_slice(b" s\n")?;
    Ok(())
}

fn push_anchor(out: &mut Vec<u8>, i: u32) -> Result<(), NoMemory>
    requires { i ≤ 1600 }
    ensures { OnOk result (out.new.items ≡ out.old.items ++ line (words Row.Anchor i)) }
{
    push_numbered(out, b"anchor a", i)?;
    push_numbered(out, b" p", 4 * i)?;
    out.extend_from_slice(b" - -\n")?;
    Ok(())
}

fn push_support(out: &mut Vec<u8>, i: u32) -> Result<(), NoMemory>
    requires { i ≤ 1600 }
    ensures { OnOk result (out.new.items ≡ out.old.items ++ line (words Row.Support i)) }
{
    push_numbered(out, b"oneway r", i)?;
    push_numbered(out, b" p", 4 * i + 2)?;
    out.extend_from_slice(b" 0 0 -1 0 100000000\n")?;
    Ok(())
}

/// Writes some bytes, and a number behind them.
fn push_numbered(out: &mut Vec<u8>, front: &[u8], number: u32) -> Result<(), NoMemory>
    ensures { OnOk result (out.new.items ≡ out.old.items ++ front.now ++ decimal number) }
{
    let mut digits = Buffer::new();
    out.extend_from_slice(front)?;
    out.extend_from_slice(digits.format(number).as_bytes())?;
    Ok(())
}

/// The place of a node along x, in micrometres.
fn east(i: u32) -> u32
    requires { i ≤ 1600 }
    ensures { result ≡ east i }
{
    let within = match i % 4 {
        0 => 0,
        3 => 6_000_000,
        _ => 3_000_000,
    };
    6_000_000 * (i / 4) + within
}

/// The place of a node along y, in micrometres.
fn north(i: u32) -> u32
    ensures { result ≡ north i }
{
    if i % 4 < 2 { 0 } else { 3_000_000 }
}
