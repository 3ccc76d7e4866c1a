//! The reader of the model text.
ghost use Rattle.std.specs.Prelude.{◌≡◌, ◌<◌, IsOkAnd, ◌≤◌, ℕ, length, Ok, Err, OnOk, IfOk};
ghost use Rattle.model_types.specs.Kinds.{node_kind, count, place};
ghost use Rattle.model_types.specs.Ranges.{InForm, ShapeInForm};
ghost use Rattle.model_types.specs.Refusals.{IsSineFor, IsSineOf};
ghost use Rattle.model_types.specs.Rules.{IsModel};
ghost use Rattle.model_text.specs.Lines as line_of;
ghost use Rattle.model_text.specs.Lines.{start};
ghost use Rattle.model_text.specs.Grammar as grammar;
ghost use Rattle.model_text.specs.Rows.{kind_made};
ghost use Rattle.model_text.specs.Words.{words};
ghost use Rattle.text_words.specs.Fields.{lines};

use crate::records::{Form, form_of, record_of_words};
use crate::words::{Words, is_allowed};
use angle_table::half;
use model_types::{AddFault, Bounds, Draft, Model, NodeId, Record, Shape, WholeFault};
use std::alloc::{AllocError, Global};
use text_words::cut_line;
use thiserror::Error;

/// Why a text was not read.
#[derive(Clone, Copy, Debug, Error)]
pub enum TextFault {
    /// The text is refused by this number, at this line, counted from 1.
    #[error("refused {number} line {line}")]
    Refused { number: u8, line: u32 },
    #[error("out of memory")]
    NoMemory,
}

impl From<AllocError> for TextFault {
    ghost use Rattle.std.specs.Prelude.{◌≡◌};
    ghost use Rattle.model_text.specs.declared.reader.TextFault.TheVariants.{NoMemory};

    ghost from_gives = { λ _ e. e ≡ NoMemory };

    fn from(_error: AllocError) -> TextFault {
        TextFault::NoMemory
    }
}

/// The most bytes that a text may have.
pub(crate) const LONGEST_TEXT: usize = 4_194_304;

/// What has been read of a text: whether the header, and which records.
#[derive(Drop)]
pub(crate) struct Reading {
    header: bool,
    draft: Draft,
}

impl std::marker::Model for Reading {
    ghost use Rattle.model_text.specs.Lines.{State};

    ghost Value = { State };

    ghost view = { λ r. record { header = r.header; draft = r.draft } };
}

/// Reads a text of at most 4,194,304 bytes. A text is refused by its first faulty line, or for what it lacks as a whole.
pub fn read(alloc: Global, text: &[u8]) -> Result<Model, TextFault>
    ensures model { IfOk result (λ model. grammar.parsed text.now ≡ Ok model) }
    ensures refused { (number line : ℕ) → result ≡ Err (TextFault.Refused number line)
        → grammar.parsed text.now ≡ Err (record { number = number; line = line }) }

    // The model keeps the rules, and a refusal tells the first faulty line or what the whole text lacks.
    ensures rules { IfOk result IsModel }
    ensures stands { IfOk result (grammar.StandsFor text.now) }
    ensures fault { (number line : ℕ) → result ≡ Err (TextFault.Refused number line) → grammar.IsRefusedAt text.now number line }
{
    read_lines(alloc, text)
}

/// The grammar, told in words: a text is refused by a number at a line exactly where it is too long, or that line is the first at
/// fault, or the header or a node is missing; it stands for a model exactly where none of these holds.
pub fn grammar_is_told()
    ensures refused { grammar.RefusalsAreReasons }
    ensures accepted { grammar.ModelsAreAccepted }
{}

/// What shows that the line of a record leaves no choice: one line makes it, and the grammar's line of a record is that line.
pub fn lines_are_determined()
    ensures one { grammar.LinesAreDetermined }
    ensures told { grammar.LinesAreTold }
{}

// Reads a text.
fn read_lines(alloc: Global, text: &[u8]) -> Result<Model, TextFault>
    ensures model { IfOk result (λ model. grammar.parsed text.now ≡ Ok model) }
    ensures refused { (number line : ℕ) → result ≡ Err (TextFault.Refused number line)
        → grammar.parsed text.now ≡ Err (record { number = number; line = line }) }
    ensures rules { IfOk result IsModel }
{
    if text.len() > LONGEST_TEXT {
        return Err(TextFault::Refused { number: 1, line: 1 });
    }
    let draft = Draft::new(alloc)?;
    let mut reading = Reading {
        header: false,
        draft,
    };
    match take_lines(&mut reading, text) {
        Ok(()) => whole(reading, text),
        Err(fault) => {
            drop(reading);
            Err(fault)
        }
    }
}

// The model of all lines of a text.
fn whole(reading: Reading, text: &[u8]) -> Result<Model, TextFault>
    requires short { length text.now ≤ LONGEST_TEXT }
    requires read { grammar.after_lines start 1 (lines text.now) ≡ Ok reading }
    ensures rules { IfOk result IsModel }
    ensures model { IfOk result (λ model. grammar.whole (lines text.now) (Ok reading) ≡ Ok model) }
    ensures refused { (number line : ℕ) → result ≡ Err (TextFault.Refused number line)
        → grammar.whole (lines text.now) (Ok reading) ≡ Err (record { number = number; line = line }) }
{
    if !reading.header {
        drop(reading);
        return Err(TextFault::Refused { number: 3, line: 1 });
    }
    match reading.draft.finish() {
        Ok(model) => Ok(model),
        Err(WholeFault::Missing) => Err(TextFault::Refused {
            number: 15,
            line: 1,
        }),
        Err(WholeFault::Tee(number)) => Err(TextFault::Refused {
            number: 12,
            line: record_line(text, Form::Tee, number),
        }),
    }
}

// Takes the lines of a text, up to the first that is refused.
fn take_lines(reading: &mut Reading, text: &[u8]) -> Result<(), TextFault>
    requires { length text.now ≤ LONGEST_TEXT }
    ensures ok { OnOk result (grammar.after_lines reading.old 1 (lines text.now) ≡ Ok reading.new) }
    ensures refused { (number line : ℕ) → result ≡ Err (TextFault.Refused number line)
        → grammar.after_lines reading.old 1 (lines text.now) ≡ Err (record { number = number; line = line }) }
{
    let mut rest = Some(text);
    let mut line = 1;
    while let Some(left) = rest {
        let (front, behind) = cut_line(left);
        if let Err(fault) = take_line(reading, front) {
            return Err(at_line(fault, line));
        }
        rest = behind;
        line += 1;
    }
    Ok(())
}

/// The line, counted from 1, of the node of that number in an accepted text.
pub fn node_line(text: &[u8], node: NodeId) -> u32
    requires { IsOkAnd (grammar.parsed text.now) (λ model. node.0 < length model.nodes) }
    ensures { grammar.IsLineOf text.now node_kind node.0 result }
{
    record_line(text, Form::Node, node.0)
}

// The line of the record of that number, among those of the kind of a form.
fn record_line(text: &[u8], form: Form, number: u32) -> u32
    requires short { length text.now ≤ LONGEST_TEXT }
    requires there { IsOkAnd (grammar.after_lines start 1 (lines text.now)) (λ read. number < count read.draft (kind_made form)) }
    ensures { grammar.IsLineOf text.now (kind_made form) number result }
{
    let mut rest = Some(text);
    let mut line = 1;
    let mut made = 0;
    while let Some(left) = rest {
        let (front, behind) = cut_line(left);
        if makes(front, form) {
            if made == number {
                return line;
            }
            made += 1;
        }
        rest = behind;
        line += 1;
    }
    unreachable!()
}

// Whether a line makes a record of the kind of a form.
fn makes(line: &[u8], form: Form) -> bool
    ensures { result ≡ line_of.makes (kind_made form) (words line.now) }
{
    match form_of(&Words::of(line)) {
        Ok(found) => place(found) == place(form),
        Err(_) => false,
    }
}

// The place of a form's kind in the canonical text.
fn place(form: Form) -> u8
    ensures { result ≡ place (kind_made form) }
{
    match form {
        Form::Material => 0,
        Form::Section => 1,
        Form::Node => 2,
        Form::Straight | Form::Bend => 3,
        Form::Tee => 4,
        Form::Anchor | Form::Linear | Form::Twist => 5,
        Form::Oneway | Form::Gap | Form::Hanger => 5,
        Form::Case => 6,
        Form::Temp => 7,
        Form::Pressure => 8,
        Form::Force => 9,
        Form::Move => 10,
        Form::Sustained | Form::Occasional | Form::Expansion => 11,
    }
}

// The fault of a line.
fn at_line(fault: AddFault, line: u32) -> TextFault
    ensures { result ≡ line_of.at_line fault line }
{
    match fault {
        AddFault::Refused(number) => TextFault::Refused { number, line },
        AddFault::NoMemory => TextFault::NoMemory,
    }
}

// Takes the next line of the text.
fn take_line(reading: &mut Reading, line: &[u8]) -> Result<(), AddFault>
    ensures ok { OnOk result (line_of.after_line reading.old line.now ≡ Ok reading.new) }
    ensures refused { (number : ℕ) → result ≡ Err (AddFault.Refused number) → line_of.after_line reading.old line.now ≡ Err number }
{
    if !is_allowed(line) {
        return Err(AddFault::Refused(2));
    }
    let words = Words::of(line);
    if words.count() == 0 {
        return Ok(());
    }
    if reading.header {
        return take_record(&mut reading.draft, &words);
    }
    if !is_header(&words) {
        return Err(AddFault::Refused(3));
    }
    reading.header = true;
    Ok(())
}

// Whether a line's words are `pipeflex 1`.
fn is_header(line: &Words) -> bool
    ensures { result ≡ line_of.is_header line.now }
{
    line.count() == 2 && line.word(0) == b"pipeflex".as_slice() && line.word(1) == b"1".as_slice()
}

// Takes the record of a line that has words.
fn take_record(draft: &mut Draft, line: &Words) -> Result<(), AddFault>
    ensures ok { OnOk result (line_of.record_taken draft.old line.now ≡ Ok draft.new) }
    ensures refused { (number : ℕ) → result ≡ Err (AddFault.Refused number) → line_of.record_taken draft.old line.now ≡ Err number }
{
    match record_of_words(draft, line) {
        Ok(found) => judge(draft, found),
        Err(number) => Err(AddFault::Refused(number)),
    }
}

// Adds a record, unless a rule refuses it.
fn judge(draft: &mut Draft, found: Record) -> Result<(), AddFault>
    requires { InForm found }
    ensures ok { OnOk result (line_of.taken draft.old found ≡ Ok draft.new) }
    ensures refused { (number : ℕ) → result ≡ Err (AddFault.Refused number) → line_of.taken draft.old found ≡ Err number }
{
    draft.add(found, sine_for(&found))
}

// For a bend the ends of the sine of half its angle; nothing looks at those of another record.
fn sine_for(found: &Record) -> Bounds
    requires { InForm found.now }
    ensures { IsSineFor found.now result }
{
    match found {
        Record::Element(element) => sine_of(element.shape),
        Record::Material(_) | Record::Section(_) | Record::Node(_) => NO_SINE,
        Record::Tee(_) | Record::Restraint(_) => NO_SINE,
        Record::Case(_) | Record::Temp(_) | Record::Pressure(_) => NO_SINE,
        Record::Force(_) | Record::Move(_) | Record::Check(_) => NO_SINE,
    }
}

const NO_SINE: Bounds = Bounds { lo: 0, hi: 0 };

fn sine_of(shape: Shape) -> Bounds
    requires { ShapeInForm shape }
    ensures { IsSineOf shape result }
{
    match shape {
        Shape::Straight => NO_SINE,
        Shape::Bend { angle, .. } => {
            let sine = half(angle).sin;
            Bounds {
                lo: sine.lo,
                hi: sine.hi,
            }
        }
    }
}
