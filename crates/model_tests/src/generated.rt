//! Generated models: the whole text of one loop, and the ends of the text of 400.
use model_gen::generate;
use model_text::read;

const ONE_LOOP: &str = "pipeflex 1
material m 200000 300 12000 7850
section s m 168300 7110 0 0
node p0 0 0 0
node p1 3000000 0 0
node p2 3000000 3000000 0
node p3 6000000 3000000 0
node p4 6000000 0 0
straight e0 p0 p1 s
straight e1 p1 p2 s
straight e2 p2 p3 s
straight e3 p3 p4 s
anchor a0 p0 - -
anchor a1 p4 - -
oneway r0 p2 0 0 -1 0 100000000
case w 0 0 -1000 0 0 0
";

const FIRST_LINES: &str = "pipeflex 1
material m 200000 300 12000 7850
section s m 168300 7110 0 0
node p0 0 0 0
node p1 3000000 0 0
node p2 3000000 3000000 0
node p3 6000000 3000000 0
node p4 6000000 0 0
node p5 9000000 0 0
node p6 9000000 3000000 0
node p7 12000000 3000000 0
node p8 12000000 0 0
";

const LAST_LINES: &str = "
oneway r398 p1594 0 0 -1 0 100000000
oneway r399 p1598 0 0 -1 0 100000000
case w 0 0 -1000 0 0 0
";

#[test]
fn generates_one_loop(rt: HostRuntime) {
    let text = generate(rt.alloc(), 1).expect(&rt, "memory");
    assert!(rt; text.as_slice() == ONE_LOOP.as_bytes());
}

#[test]
fn generates_four_hundred(rt: HostRuntime) {
    let text = generate(rt.alloc(), 400).expect(&rt, "memory");
    assert!(rt; text.starts_with(FIRST_LINES.as_bytes()));
    assert!(rt; text.ends_with(LAST_LINES.as_bytes()));
    let Ok(model) = read(rt.alloc(), &text) else {
        panic!(rt; "the text is refused");
    };
    let found = [
        model.nodes().len(),
        model.elements().len(),
        model.restraints().len(),
        model.cases().len(),
    ];
    assert_eq!(rt; found, [1601, 1600, 801, 1]);
}
