//! Two nodes and two cases: forces that add, a force whose load is no whole number of units, and loads at the limit.
use crate::makers::{check_case, model};
use flex_interval::{Iv, point};
use load_vectors::{LoadFault, loads};
use model_types::CaseId;
use std::alloc::Global;
use std::process::Abort;

// 2^66 units are 2^26 N, or 67,108,864,000 mN.
const FORCES: &str = "node a 0 0 0
node b 0 0 0
case small 0 0 0 0 0 0
case great 0 0 0 0 0 0
force small b 1000000 0 0 0 0 0
force great b -67108864000 0 0 0 0 0
force small b 500000 1 0 0 0 0
force great a 0 0 0 0 67108863999 67108864000
force small a 0 0 -1 0 0 0
force small b 0 0 0 0 -2000 0
";

fn loads_of(rt: &impl Abort, alloc: Global, case: u32) -> Result<Vec<Iv>, LoadFault> {
    let m = model(rt, alloc, &[FORCES]);
    check_case(rt, &m, case as usize);
    loads(alloc, &m, CaseId(case))
}

// 1,000,000 mN and 500,000 mN are 1500 N. 1 mN is 1,099,511,627.776 units.
#[test]
fn forces_add(rt: HostRuntime) {
    let found = loads_of(&rt, rt.alloc(), 0).expect(&rt, "loads");
    let expected = [
        point(0),
        point(0),
        Iv {
            lo: -1_099_511_628,
            hi: -1_099_511_627,
        },
        point(0),
        point(0),
        point(0),
        point(1500 << 40),
        Iv {
            lo: 1_099_511_627,
            hi: 1_099_511_628,
        },
        point(0),
        point(0),
        point(-(2 << 40)),
        point(0),
    ];
    assert!(rt; found.as_slice() == expected.as_slice());
}

// Rows 5 and 6 are at the limit, and row 4 is not.
#[test]
fn first_wide_row(rt: HostRuntime) {
    let found = loads_of(&rt, rt.alloc(), 1);
    assert!(rt; matches!(found, Err(LoadFault::Wide { row: 5 })));
}
