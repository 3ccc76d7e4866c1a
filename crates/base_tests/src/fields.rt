use std::test::Fail;
use text_words::{Name, NumberFault, cut_line, number, push_line, split_once};

#[test]
fn reads_numbers(rt: HostRuntime) {
    let rows: [(&[u8], Result<i64, NumberFault>); 13] = [
        (b"0", Ok(0)),
        (b"7", Ok(7)),
        (b"-7", Ok(-7)),
        (b"999999999999999999", Ok(999_999_999_999_999_999)),
        (b"-999999999999999999", Ok(-999_999_999_999_999_999)),
        (b"1000000000000000000", Err(NumberFault::TooLong)),
        (b"-1000000000000000000", Err(NumberFault::TooLong)),
        (b"", Err(NumberFault::NotANumber)),
        (b"-", Err(NumberFault::NotANumber)),
        (b"-0", Err(NumberFault::NotANumber)),
        (b"0000000000000000000001", Err(NumberFault::NotANumber)),
        (b"+1", Err(NumberFault::NotANumber)),
        (b"1x", Err(NumberFault::NotANumber)),
    ];
    for (word, want) in rows {
        assert_eq!(rt; number(word), want);
    }
}

#[test]
fn writes_lines(rt: HostRuntime) -> Result<(), Fail> {
    let mut out = Vec::new(rt.alloc());
    push_line(&mut out, &[b"end"])?;
    push_line(&mut out, &[b"node", b"a", b"-1"])?;
    assert_eq!(rt; out.as_slice(), b"end\nnode a -1\n".as_slice());
    Ok(())
}

#[test]
fn tells_names(rt: HostRuntime) {
    let rows: [(&[u8], bool); 13] = [
        (b"a", true),
        (b"-x", true),
        (b"--", true),
        (b"A.b_c-9", true),
        (b"Node-1_b.2", true),
        (b"0123456789abcdef", true),
        (b"abcdefghijklmnop", true),
        (b"abcdefghijklmnopq", false),
        (b"0123456789abcdefg", false),
        (b"", false),
        (b"-", false),
        (b"a b", false),
        (b"a#", false),
    ];
    for (bytes, is_name) in rows {
        match Name::new(bytes) {
            Some(name) => assert!(rt; is_name && name.bytes() == bytes && name == name),
            None => assert!(rt; !is_name),
        }
    }
}

#[test]
fn cuts_lines(rt: HostRuntime) {
    let rows: [(&[u8], &[u8], Option<&[u8]>); 2] = [
        (b"a\nb\n", b"a", Some(b"b\n")),
        (b"b", b"b", None),
    ];
    for (text, line, rest) in rows {
        assert!(rt; cut_line(text) == (line, rest), "{line:?}");
    }
    let halves: (&[u8], &[u8]) = (b"k", b"v");
    assert!(rt; split_once(b"k=v", b'=') == Some(halves));
}
