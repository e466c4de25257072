use super::*;
use std::test::Fail;

#[test]
fn integer_literals_have_their_values(rt: HostRuntime) {
    let table: [(&[u8], Option<i64>); 40] = [
        (b"0", Some(0)),
        (b"1", Some(1)),
        (b"9", Some(9)),
        (b"10", Some(10)),
        (b"1234567890", Some(1234567890)),
        (b"00", Some(0)),
        (b"007", Some(7)),
        (b"017", Some(15)),
        (b"0755", Some(493)),
        (b"08", None),
        (b"018", None),
        (b"09", None),
        (b"0x", None),
        (b"0X", None),
        (b"0xg", None),
        (b"0x.8p1", None),
        (b"0xul", None),
        (b"0x0", Some(0)),
        (b"0xFFul", Some(255)),
        (b"0Xff", Some(255)),
        (b"0xDeadBeefLLU", Some(3735928559)),
        (b"0xe+1", None),
        (b"00x1", None),
        (b"9223372036854775807", Some(i64::MAX)),
        (b"9223372036854775808", None),
        (b"99999999999999999999999999", None),
        (b"0x7fffffffffffffff", Some(i64::MAX)),
        (b"0x8000000000000000", None),
        (b"0777777777777777777777", Some(i64::MAX)),
        (b"01000000000000000000000", None),
        (
            b"0000000000000000000000000000000000000000000000012",
            Some(10),
        ),
        (b"0x00000000000000000000000000000001", Some(1)),
        (b"1lu", Some(1)),
        (b"1ULLUL", Some(1)),
        (b"1.5", None),
        (b"1e3", None),
        (b"", None),
        (b"u", None),
        (b"-1", None),
        (b"1 ", None),
    ];
    for (text, value) in table {
        assert_eq!(rt; integer_value(text), value, "at {text:?}");
    }
}

#[test]
fn characters_are_told_apart(rt: HostRuntime) -> Result<(), Fail> {
    for (c, starts, continues) in [
        ('_', true, true),
        ('a', true, true),
        ('Z', true, true),
        ('0', false, true),
        ('\u{e9}', true, true),
        ('\u{4e2d}', true, true),
        ('\u{301}', false, true),
        ('\u{d7}', false, false),
        ('$', false, false),
        ('-', false, false),
        (' ', false, false),
    ] {
        assert_eq!(rt; starts_identifier(c), starts, "{c} as the first");
        assert_eq!(rt; continues_identifier(c), continues, "{c} as another");
    }
    for byte in 0..=127u8 {
        let space = b" \t\n\x0b\x0c\r".contains(&byte);
        assert_eq!(rt; is_white_space(byte), space, "at {byte}");
    }
    assert!(rt; !is_white_space(0x85) && !is_white_space(0xa0));
    Ok(())
}
