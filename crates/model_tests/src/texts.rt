//! The base text, its canonical form, and each refusal.
use model_text::{TextFault, echo, node_line, read};
use model_types::{CheckId, NodeId};
use std::alloc::Global;
use std::process::Abort;

const BASE: &str = "pipeflex 1
material st 200000 300 12000 7850
section s st 100000 10000 0 0
node a 0 0 0
node b 1000000 0 0
straight p a b s
anchor A a - -
";

// The number and line that refuse a text, or nothing where it is read.
fn refusal(rt: &impl Abort, alloc: Global, text: &[u8]) -> Option<(u8, u32)> {
    match read(alloc, text) {
        Ok(_) => None,
        Err(TextFault::Refused { number, line }) => Some((number, line)),
        Err(TextFault::NoMemory) => panic!(rt; "no memory"),
    }
}

// The text is refused by this number at this line, or read.
fn judge(rt: &impl Abort, alloc: Global, text: &str, expected: Option<(u8, u32)>) {
    assert_eq!(rt; refusal(rt, alloc, text.as_bytes()), expected, "at {text}");
}

// The base text with one more line, likewise.
fn judge_line(rt: &impl Abort, alloc: Global, line: &str, expected: Option<(u8, u32)>) {
    let text = format!(in alloc; "{BASE}{line}").expect(rt, "memory");
    judge(rt, alloc, text.as_str(), expected);
}

#[test]
fn refuses_whole_texts(rt: HostRuntime) {
    for (text, number, line) in [
        ("", 3, 1),
        ("\n # nothing\n", 3, 1),
        ("pipeflex 1", 15, 1),
        ("\n\npipeflex 2\n", 3, 3),
        ("pipeflex 1 1\n", 3, 1),
        ("pipeflex 1\nmaterial st 200000", 5, 2),
        ("pipeflex 1\nmaterial st 2x 300 12000 7850\n", 6, 2),
        ("pipeflex 1\n# \u{7f}\n", 2, 2),
    ] {
        judge(&rt, rt.alloc(), text, Some((number, line)));
    }
}

#[test]
fn refuses_one_more_line(rt: HostRuntime) {
    for (line, number) in [
        ("node a 1 1 1", 8),
        ("node c -0 0 0", 6),
        ("node c 00000000000000000000 0 0", 6),
        ("node c 1000000000000000000 0 0", 7),
        ("node c 10000000001 0 0", 7),
        ("node c 0 0", 5),
        ("node - 0 0 0", 7),
        ("nodes c 0 0 0", 4),
        ("bend c", 5),
        ("check", 5),
        ("check c", 5),
        ("check c bent", 9),
        ("temp c", 5),
        ("section w st 100000 50000 0 0", 13),
        ("section w sx 100000 50000 0 0", 9),
        ("straight q a a s", 10),
        ("straight q a c s", 9),
        ("anchor A c - -", 8),
        ("linear B a 0 0 0 x", 7),
        ("linear B a 0 0 x -", 6),
        ("twist B a 0 0 1 0", 7),
        ("oneway R b 0 0 0 x -", 7),
        ("oneway R b 0 0 x 0 -", 6),
        ("oneway R b 0 0 -1 -1 -", 7),
        ("oneway R b 0 0 -1 1000001 -", 7),
        ("oneway R b 0 0 -1 - -", 6),
        ("oneway R b 0 0 -1 -", 5),
        ("gap R b 0 0 1 0 0", 7),
        ("gap R c 0 0 1 0 -", 9),
        ("gap A c 0 0 1 0 -", 8),
        ("hanger H b - 0", 6),
        ("hanger H b 0 0", 7),
        ("hanger H b 1 -1", 7),
        ("hanger H b 1 1000000001", 7),
        ("hanger H b 1 0 0", 5),
        ("case c 0 0 0 2 0 0", 7),
        ("case c 10001 0 0 0 0 0", 7),
        ("case c 0 -10001 0 0 0 0", 7),
        ("case c 0 0 x 0 0 0", 6),
        ("case c 0 0 0 - 0 0", 6),
        ("case c 0 0 0 0 1000001 0", 7),
        ("case c 0 0 0 0 0 -1", 7),
        ("case c 0 0 0 0 0 100000001", 7),
        ("temp c s 0", 9),
        ("pressure c s 0", 9),
        ("move c A 0 0 0", 9),
        ("force c a 0 0 0 0 0 0", 9),
    ] {
        judge_line(&rt, rt.alloc(), line, Some((number, 8)));
    }
}

#[test]
fn reads_what_it_may(rt: HostRuntime) {
    for line in [
        "",
        "\t# a comment: \t~",
        " node\tfar  30000000 0 0 # a comment",
        "twist B a 0 0 1 2000000000000",
        "oneway R b 0 0 -1 1000000 -\ngap G b 0 1 0 0 2000000000000",
        "hanger H b 2000000000000 1000000000\nhanger I b 1 0",
        "case c 0 0 0 0 0 0\nforce c b 0 0 -1000000 0 0 0\nforce c b 0 0 1 0 0 0",
        "case c 10000 -10000 0 1 1000000 100000000",
        "case c 0 0 -1000 1 -1000000 0\ncase d 0 0 0 0 0 0\ntemp c s 0\ntemp d s 0\npressure d s 0",
    ] {
        judge_line(&rt, rt.alloc(), line, None);
    }
}

// Changes of temperature, pressures and movements of the cases of a model with another section and two more restraints.
#[test]
fn judges_what_cases_change(rt: HostRuntime) {
    for (line, expected) in [
        ("temp c s 1000000", None),
        ("temp c s -1000000", None),
        ("temp c s 1000001", Some((7, 13))),
        ("temp c s -1000001", Some((7, 13))),
        ("temp c s -", Some((6, 13))),
        ("temp c s", Some((5, 13))),
        ("temp c s 1 1", Some((5, 13))),
        ("temp c+ s x", Some((7, 13))),
        ("temp c s+ x", Some((7, 13))),
        ("temp d s 1", Some((9, 13))),
        ("temp c t 1", Some((9, 13))),
        ("temp c s 1\ntemp c w 1", None),
        ("temp c s 1\ntemp c s 2", Some((8, 14))),
        ("temp c s 1\ntemp d s x", Some((6, 14))),
        ("pressure c s 0", None),
        ("pressure c s 100000000", None),
        ("pressure c s 100000001", Some((7, 13))),
        ("pressure c s -1", Some((7, 13))),
        ("pressure c w 1\npressure c s 1", None),
        ("pressure c w 1\npressure c w 1", Some((8, 14))),
        ("pressure c t 1", Some((9, 13))),
        ("temp c s 1\npressure c s 1", None),
        ("move c A 1000000 -1000000 0", None),
        ("move c A 1000001 0 0", Some((7, 13))),
        ("move c A 0 -1000001 0", Some((7, 13))),
        ("move c A 0 0 -", Some((6, 13))),
        ("move c A 0 0", Some((5, 13))),
        ("move d A 0 0 0", Some((9, 13))),
        ("move c C 0 0 0", Some((9, 13))),
        // The restraint is no anchor: a linear one, or a hanger.
        ("move c L 0 0 0", Some((9, 13))),
        ("move c H 0 0 0", Some((9, 13))),
        ("move c A 0 0 0\nmove c B 0 0 0", None),
        ("move c A 0 0 0\nmove c A 1 0 0", Some((8, 14))),
        ("anchor C a - -\nmove c C 0 0 1", None),
    ] {
        let text = format!(in rt.alloc(); "{BASE}{CHANGED}{line}").expect(&rt, "memory");
        judge(&rt, rt.alloc(), text.as_str(), expected);
    }
}

const CHANGED: &str = "\
section w st 60300 3910 0 0
linear L b 0 0 1 -
hanger H b 1 0
anchor B b - -
case c 0 0 0 0 0 0
";

// The cases of a model with a sustained check.
const CHECKED: &str = "\
case w 0 0 -1000 0 0 0
case h 0 0 -1000 0 100000 1000000
check sus sustained w 137900
";

// The base text with cases, a sustained check and further lines is refused by this number at this line, or read.
fn judge_checks(rt: &impl Abort, alloc: Global, lines: &str, expected: Option<(u8, u32)>) {
    let text = format!(in alloc; "{BASE}{CHECKED}{lines}").expect(rt, "memory");
    judge(rt, alloc, text.as_str(), expected);
}

#[test]
fn judges_checks_of_one_case(rt: HostRuntime) {
    for (line, expected) in [
        ("check a sustained w 1", None),
        ("check w sustained h 2000000", None),
        ("check a sustained w 0", Some((7, 11))),
        ("check a sustained w 2000001", Some((7, 11))),
        ("check a sustained w -", Some((6, 11))),
        ("check a sustained w", Some((5, 11))),
        ("check a sustained w 1 1", Some((5, 11))),
        ("check a sustained + x", Some((7, 11))),
        ("check + sustained w x", Some((7, 11))),
        ("check sus sustained v 0", Some((7, 11))),
        ("check sus sustained v 1", Some((8, 11))),
        ("check a sustained v 1", Some((9, 11))),
        ("check a sustained v 1\ncase v 0 0 0 0 0 0", Some((9, 11))),
        // The kind comes before the count of words, and before the form of the name.
        ("check + bent", Some((9, 11))),
        ("check + Sustained w 1 1", Some((9, 11))),
        ("check + #", Some((5, 11))),
        ("check a occasional w 1 -", None),
        ("check a occasional w 2000000 100", None),
        ("check a occasional w 1 200", None),
        ("check a occasional w 1 99", Some((7, 11))),
        ("check a occasional w 1 201", Some((7, 11))),
        ("check a occasional w 1 x", Some((6, 11))),
        ("check a occasional w 1", Some((5, 11))),
        ("check a occasional w 0 x", Some((7, 11))),
        ("check a occasional v 1 -", Some((9, 11))),
    ] {
        judge_checks(&rt, rt.alloc(), line, expected);
    }
}

#[test]
fn judges_expansion_checks(rt: HostRuntime) {
    for (lines, expected) in [
        ("check a expansion w h 1 2000000 1 100 -", None),
        ("check a expansion h h 2000000 1 1000000000 1200 sus", None),
        ("check a expansion w h 1 1 1 100", Some((5, 11))),
        ("check a expansion w h 1 1 1 100 - -", Some((5, 11))),
        ("check a expansion + h 0 1 1 100 -", Some((7, 11))),
        ("check a expansion w + x 1 1 100 -", Some((7, 11))),
        ("check a expansion w h x 0 1 100 -", Some((6, 11))),
        ("check a expansion w h 0 x 1 100 -", Some((7, 11))),
        ("check a expansion w h 1 2000001 x 100 -", Some((7, 11))),
        ("check a expansion w h 1 - 0 100 -", Some((6, 11))),
        ("check a expansion w h 1 1 0 x -", Some((7, 11))),
        ("check a expansion w h 1 1 1000000001 100 -", Some((7, 11))),
        ("check a expansion w h 1 1 - 100 -", Some((6, 11))),
        ("check a expansion w h 1 1 1 99 +", Some((7, 11))),
        ("check a expansion w h 1 1 1 1201 -", Some((7, 11))),
        ("check a expansion w h 1 1 1 - +", Some((6, 11))),
        ("check a expansion w h 1 1 1 100 +", Some((7, 11))),
        ("check sus expansion v h 1 1 1 100 -", Some((8, 11))),
        ("check a expansion v h 1 1 1 100 -", Some((9, 11))),
        ("check a expansion w v 1 1 1 100 -", Some((9, 11))),
        ("check a expansion w h 1 1 1 100 b", Some((9, 11))),
        // A later check, and the check itself.
        (
            "check a expansion w h 1 1 1 100 b\ncheck b sustained w 1",
            Some((9, 11)),
        ),
        ("check a expansion w h 1 1 1 100 a", Some((9, 11))),
        // The check is there, and is no sustained one.
        (
            "check b occasional w 1 -\ncheck a expansion w h 1 1 1 100 b",
            Some((9, 12)),
        ),
        (
            "check b expansion w h 1 1 1 100 sus\ncheck a expansion w h 1 1 1 100 b",
            Some((9, 12)),
        ),
    ] {
        judge_checks(&rt, rt.alloc(), lines, expected);
    }
}

// The base text with a case, and so many checks from line 9 on.
fn with_checks(rt: &impl Abort, alloc: Global, count: u32) -> String {
    let mut text = format!(in alloc; "{BASE}case w 0 0 -1000 0 0 0\n").expect(rt, "memory");
    for i in 0..count {
        text = format!(in alloc; "{text}check c{i} sustained w 1\n").expect(rt, "memory");
    }
    text
}

#[test]
fn counts_checks(rt: HostRuntime) {
    let full = with_checks(&rt, rt.alloc(), 32);
    judge(&rt, rt.alloc(), full.as_str(), None);
    let over = with_checks(&rt, rt.alloc(), 33);
    judge(&rt, rt.alloc(), over.as_str(), Some((14, 41)));
    let doubled = format!(in rt.alloc(); "{full}check c7 sustained w 1").expect(&rt, "memory");
    judge(&rt, rt.alloc(), doubled.as_str(), Some((8, 41)));
}

// A header with a branch at b, and a pipe that runs on from c.
const BRANCHED: &str = "pipeflex 1
material st 200000 300 12000 7850
section s st 168300 7110 0 0
section w st 168300 8180 0 0
node a 0 0 0
node b 1000000 0 0
node c 2000000 0 0
node d 1000000 800000 0
node e 3000000 0 0
straight p a b s
straight q b c s
straight r b d s
";

#[test]
fn judges_tees(rt: HostRuntime) {
    for (lines, expected) in [
        ("tee b r s unreinforced 0", None),
        ("tee b r s pad 200000", None),
        ("tee b r s coefficient 100", None),
        ("tee b r s", Some((5, 13))),
        ("tee b+ r s flat 0", Some((7, 13))),
        ("tee z r s flat x", Some((9, 13))),
        ("tee b r s unreinforced x", Some((6, 13))),
        ("tee b r s unreinforced 1", Some((7, 13))),
        ("tee b r s pad -", Some((6, 13))),
        ("tee b r s pad 0", Some((7, 13))),
        ("tee b r s pad 200001", Some((7, 13))),
        ("tee b r s coefficient 99", Some((7, 13))),
        ("tee b r s coefficient 100001", Some((7, 13))),
        ("tee z r s pad 1", Some((9, 13))),
        ("tee b z s pad 1", Some((9, 13))),
        ("tee b r z pad 1", Some((9, 13))),
        ("tee b r s pad 1\ntee b r s pad 2", Some((8, 14))),
        ("tee b r s pad 1\ntee b r s - 2", Some((9, 14))),
        // The branch is in line with the header.
        ("tee b p s pad 1", Some((12, 13))),
        // The header isn't of that section.
        ("tee b r w pad 1", Some((12, 13))),
        // Two elements end at the node, and four.
        ("straight t c e s\ntee c q s pad 1", Some((12, 14))),
        ("tee b r s pad 1\nstraight t b e s", Some((12, 13))),
        // The branch doesn't end at the node.
        ("straight t d e s\ntee b t s pad 1", Some((12, 14))),
        // A line at fault comes before a tee that is broken.
        ("tee b p s pad 1\nnode a 0 0 0", Some((8, 14))),
    ] {
        let text = format!(in rt.alloc(); "{BRANCHED}{lines}").expect(&rt, "memory");
        judge(&rt, rt.alloc(), text.as_str(), expected);
    }
}

// A branch at b, and a tee below it whose header is still to come.
const BEFORE_HEADER: &str = "pipeflex 1
material st 200000 300 12000 7850
section s st 168300 7110 0 0
section w st 60300 3910 0 0
node a 0 0 0
node b 1000000 0 0
node c 2000000 0 0
node d 1000000 800000 0
node e 3000000 0 0
node f 2000000 0 1
node g 1458000 0 0
# the branch
straight r d b w
tee b r s pad 1
";

// A tee is judged among all elements, also those behind it, and refused at its own line.
#[test]
fn judges_tees_at_the_end(rt: HostRuntime) {
    for (lines, expected) in [
        ("straight p a b s\nstraight q b c s", None),
        ("straight p c b s\nstraight q b e s", None),
        ("straight p a b s", Some((12, 14))),
        ("straight p a b s\nstraight q b f s", Some((12, 14))),
        ("straight p a b s\nstraight q b c w", Some((12, 14))),
        (
            "straight p a b s\nbend q b g s 229000 90000 1229000 300000 0",
            Some((12, 16)),
        ),
        // A half circle's ends lie on the header's line.
        (
            "straight p a b s\nbend q b g s 229000 180000 1229000 300000 0",
            Some((12, 14)),
        ),
    ] {
        let text = format!(in rt.alloc(); "{BEFORE_HEADER}{lines}").expect(&rt, "memory");
        judge(&rt, rt.alloc(), text.as_str(), expected);
    }
}

#[test]
fn refuses_a_long_text(rt: HostRuntime) {
    let text = vec![in rt.alloc(); b' '; 4_194_305].expect(&rt, "memory");
    assert!(rt; refusal(&rt, rt.alloc(), text.as_slice()) == Some((1, 1)));
}

#[test]
fn finds_the_line_of_a_node(rt: HostRuntime) {
    let text = BASE.as_bytes();
    let model = read(rt.alloc(), text).expect(&rt, "a model");
    assert!(rt; model.nodes().len() > 1);
    let line = node_line(text, NodeId(1));
    assert!(rt; line == 5);
}

// The canonical text of the model of a text.
fn canonical(rt: &impl Abort, alloc: Global, text: &str) -> Vec<u8> {
    let model = read(alloc, text.as_bytes()).expect(rt, "a model");
    echo(alloc, &model).expect(rt, "memory")
}

fn expect_echo(rt: &impl Abort, alloc: Global, text: &str, expected: &str) {
    let echoed = canonical(rt, alloc, text);
    assert!(rt; echoed.as_slice() == expected.as_bytes());
}

#[test]
fn echoes(rt: HostRuntime) {
    let slanted = "pipeflex 1
material st 200000 300 12000 7850
section s st 100000 10000 0 0
node a 0 0 0
node b 1000000 1000000 0
straight p a b s
";
    expect_echo(&rt, rt.alloc(), slanted, slanted);

    let mixed = " pipeflex\t1 # header
node a 0 0 0
case c -1 0 1 1 -2 3
anchor B a 5 6
move c B 7 -8 9
force c a -1 2 -3 4 -5 6

gap G a 0 0 -2 0 -
twist T a 0 -1 0 7 # a rotation
hanger H a 20000 500000
oneway R a 1 0 0 5 6
linear L a 3 0 4 -
material m 1 2 3 4
section s m 1000 100 0 0
pressure c s 11
temp c s -10
anchor A a - 10
";
    let sorted = "pipeflex 1
material m 1 2 3 4
section s m 1000 100 0 0
node a 0 0 0
anchor B a 5 6
gap G a 0 0 -2 0 -
twist T a 0 -1 0 7
hanger H a 20000 500000
oneway R a 1 0 0 5 6
linear L a 3 0 4 -
anchor A a - 10
case c -1 0 1 1 -2 3
temp c s -10
pressure c s 11
force c a -1 2 -3 4 -5 6
move c B 7 -8 9
";
    expect_echo(&rt, rt.alloc(), mixed, sorted);
}

#[test]
fn echoes_tees(rt: HostRuntime) {
    let mixed = "pipeflex 1
material st 200000 300 12000 7850
section s st 168300 7110 0 0
node a 0 0 0
node b 1000000 0 0
node c 2000000 0 0
node d 1000000 0 800000
anchor A a - -
straight r b d s
tee  b\tr s coefficient 4400 # with a fitting
straight p a b s
straight q b c s
";
    let sorted = "pipeflex 1
material st 200000 300 12000 7850
section s st 168300 7110 0 0
node a 0 0 0
node b 1000000 0 0
node c 2000000 0 0
node d 1000000 0 800000
straight r b d s
straight p a b s
straight q b c s
tee b r s coefficient 4400
anchor A a - -
";
    expect_echo(&rt, rt.alloc(), mixed, sorted);
}

#[test]
fn echoes_checks(rt: HostRuntime) {
    let mixed = "pipeflex 1
case w 0 0 -1000 0 0 0
check\tsus  sustained w 137900 # weight
check wind occasional w 137900 -
node a 0 0 0
case h 0 0 -1000 0 100000 0
check gust occasional w 1 150
check range expansion w h 137900 130000 7000 1200 sus
check free expansion h w 1 2000000 1000000000 100 -
";
    let sorted = "pipeflex 1
node a 0 0 0
case w 0 0 -1000 0 0 0
case h 0 0 -1000 0 100000 0
check sus sustained w 137900
check wind occasional w 137900 -
check gust occasional w 1 150
check range expansion w h 137900 130000 7000 1200 sus
check free expansion h w 1 2000000 1000000000 100 -
";
    expect_echo(&rt, rt.alloc(), mixed, sorted);
    expect_echo(&rt, rt.alloc(), sorted, sorted);
}

#[test]
fn reads_a_check(rt: HostRuntime) {
    let text = format!(in rt.alloc(); "{BASE}{CHECKED}").expect(&rt, "memory");
    let model = read(rt.alloc(), text.as_bytes()).expect(&rt, "a model");
    assert!(rt; model.checks().len() == 1);
    let check = model.check(CheckId(0));
    assert!(rt; check.kind.is_sustained());
    assert!(rt; check.name.bytes() == b"sus".as_slice());
}
