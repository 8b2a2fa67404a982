// Texts, and numbers that are read back.
use line_text::{LineText, add, add_decimal, are_digits, cut, read_decimal, read_hex};
use std::test::Fail;

#[test]
fn a_line_is_pushed_piece_by_piece(rt: HostRuntime) -> Result<(), Fail> {
    let mut line = LineText::new();
    assert!(rt; line.push_text(b"R "));
    assert!(rt; line.push_decimal(4_294_967_295));
    assert!(rt; line.push_text(b" "));
    assert!(rt; line.push_signed(-22));
    assert!(rt; line.push_text(b" "));
    assert!(rt; line.push_hex(0x1_102f, 8));
    assert!(rt; line.push_text(b" "));
    assert!(rt; line.push_hex(0x3f8, 4));
    assert!(rt; line.push_text(b" "));
    assert!(rt; line.push_bytes(b"abcd"));
    assert!(rt; line.push_text(b" "));
    assert!(rt; line.push_bytes(b""));
    assert_eq!(rt;
        line.as_bytes(),
        b"R 4294967295 -22 0001102f 03f8 61626364 -".as_slice()
    );
    Ok(())
}

#[test]
fn what_does_not_fit_changes_nothing(rt: HostRuntime) -> Result<(), Fail> {
    let mut line = LineText::new();
    assert!(rt; line.push_bytes(&[0xa5; 256]));
    assert!(rt; !line.push_bytes(&[0x5a; 65]));
    assert!(rt; line.push_bytes(&[0x5a; 64]));
    assert!(rt; !line.push_text(b"x"));
    assert_eq!(rt; line.as_bytes().len(), 640);
    Ok(())
}

#[test]
fn what_surely_fits_is_added(rt: HostRuntime) -> Result<(), Fail> {
    let mut line = LineText::new();
    add(&mut line, b"E 30 d.txt ");
    add_decimal(&mut line, u32::MAX);
    assert_eq!(rt; line.as_bytes(), b"E 30 d.txt 4294967295".as_slice());
    Ok(())
}

#[test]
fn a_text_is_cut_at_the_first_such_byte(rt: HostRuntime) -> Result<(), Fail> {
    assert_eq!(rt;
        cut(b"5 line 5", b' '),
        (b"5".as_slice(), b"line 5".as_slice())
    );
    assert_eq!(rt; cut(b"5 ", b' '), (b"5".as_slice(), b"".as_slice()));
    assert_eq!(rt;
        cut(b"5 line 5", b'\n'),
        (b"5 line 5".as_slice(), b"".as_slice())
    );
    Ok(())
}

#[test]
fn digits_are_decimal(rt: HostRuntime) {
    assert!(rt; are_digits(b"0123456789"));
    assert!(rt; are_digits(b""));
    assert!(rt; !are_digits(b"12a"));
    assert!(rt; !are_digits(b"-1"));
}

#[test]
fn numbers_are_read(rt: HostRuntime) -> Result<(), Fail> {
    assert_eq!(rt; read_decimal(b"18446744073709551615"), Some(u64::MAX));
    assert_eq!(rt; read_decimal(b"18446744073709551616"), None);
    assert_eq!(rt; read_decimal(b"000000000000000000007"), None);
    assert_eq!(rt; read_decimal(b"00000000000000000007"), Some(7));
    assert_eq!(rt; read_hex(b"fF", 2), Some(255));
    assert_eq!(rt; read_hex(b"00010000", 8), Some(65_536));
    assert_eq!(rt; read_hex(b"00010000", 4), None);
    Ok(())
}
