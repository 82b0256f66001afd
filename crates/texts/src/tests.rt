use super::{Cursor, Token, token, write_number};
use std::test::Fail;

#[test]
fn fields_are_numbers_or_words(rt: HostRuntime) {
    assert_eq!(rt; token(b"0"), Token::Number(0));
    assert_eq!(rt; token(b"907"), Token::Number(907));
    assert_eq!(rt; token(b"18446744073709551615"), Token::Number(u64::MAX));
    assert_eq!(rt;
        token(b"18446744073709551616"),
        Token::Word(b"18446744073709551616")
    );
    assert_eq!(rt; token(b"00"), Token::Word(b"00"));
    assert_eq!(rt; token(b"01"), Token::Word(b"01"));
    assert_eq!(rt; token(b""), Token::Word(b""));
    assert_eq!(rt; token(b"1a"), Token::Word(b"1a"));
    assert_eq!(rt; token(b"\0"), Token::Word(b"\0"));
    assert_eq!(rt; token(b"\xff"), Token::Word(b"\xff"));
}

#[test]
fn lines_end_with_a_newline(rt: HostRuntime) -> Result<(), Fail> {
    let mut empty = Cursor::new(b"");
    assert!(rt; empty.line().is_none() && empty.at_end());
    let mut text = Cursor::new(b"a,,7\n\nrest");
    let mut line = text.line().ok_or("no line")?;
    assert_eq!(rt; line.field(), Some(Token::Word(b"a")));
    assert_eq!(rt; line.field(), Some(Token::Word(b"")));
    assert_eq!(rt; line.field(), Some(Token::Number(7)));
    assert_eq!(rt; line.field(), None);
    assert_eq!(rt; text.line().ok_or("no line")?.bytes(), b"".as_slice());
    assert!(rt; text.line().is_none() && !text.at_end());
    let mut whole = Cursor::new(b"1\n");
    assert_eq!(rt; whole.line().ok_or("no line")?.bytes(), b"1".as_slice());
    assert!(rt; whole.line().is_none() && whole.at_end());
    Ok(())
}

#[test]
fn numbers_fit_their_buffer(rt: HostRuntime) {
    let mut short = [9u8; 2];
    assert_eq!(rt; write_number(&mut short, 120), None);
    assert_eq!(rt; short, [9, 9]);
    let mut exact = [9u8; 3];
    assert_eq!(rt; write_number(&mut exact, 120), Some(3));
    assert_eq!(rt; exact, [49, 50, 48]);
    let mut long = [9u8; 21];
    assert_eq!(rt; write_number(&mut long, u64::MAX), Some(20));
    assert_eq!(rt; (long[0], long[19], long[20]), (49, 53, 9));
}
