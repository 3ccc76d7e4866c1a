use lists::{find_rising, insert_rising};
use std::test::Fail;

#[test]
fn keeps_each_number_once(rt: HostRuntime) -> Result<(), Fail> {
    let mut list = Vec::new(rt.alloc());
    for number in [5, 2, 9, 2, 5] {
        insert_rising(&mut list, number)?;
    }
    assert_eq!(rt; list.as_slice(), [2, 5, 9].as_slice());
    for (number, want) in [(2, Some(0)), (9, Some(2)), (4, None)] {
        assert_eq!(rt; find_rising(&list, number), want, "at {number}");
    }
    Ok(())
}
