use super::{Header, Kind, header};
use texts::Cursor;

fn header_of(text: &[u8]) -> Option<Header> {
    let mut cursor = Cursor::new(text);
    header(cursor.line()?)
}

#[test]
fn kinds_have_names(rt: HostRuntime) {
    assert_eq!(rt; Kind::named(b"never"), Some(Kind::Never));
    assert_eq!(rt; Kind::named(b"empty"), Some(Kind::Empty));
    assert_eq!(rt; Kind::named(b"leaf"), Some(Kind::Leaf));
    assert_eq!(rt; Kind::named(b"seq"), Some(Kind::Seq));
    assert_eq!(rt; Kind::named(b"alt"), Some(Kind::Alt));
    assert_eq!(rt; Kind::named(b"star"), Some(Kind::Star));
    assert_eq!(rt; Kind::named(b"sta"), None);
    assert_eq!(rt; Kind::named(b"Seq"), None);
    assert_eq!(rt; Kind::named(b""), None);
}

#[test]
fn first_lines(rt: HostRuntime) {
    let good = Header {
        letters: 2,
        nodes: 5,
    };
    assert_eq!(rt; header_of(b"pattern,1,2,5\n"), Some(good));
    assert_eq!(rt; header_of(b"pattern,2,2,5\n"), None);
    assert_eq!(rt; header_of(b"pattern,1,2\n"), None);
    assert_eq!(rt; header_of(b"pattern,1,2,5,\n"), None);
    assert_eq!(rt; header_of(b"pattern,1,02,5\n"), None);
    assert_eq!(rt; header_of(b"Pattern,1,2,5\n"), None);
}
