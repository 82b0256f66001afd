use super::*;
use std::test::Fail;

// Whether each name is that of its letter, or of none.
fn has_names<A: Alphabet>(alphabet: &A, names: &[(&[u8], Option<u8>)]) -> bool {
    names
        .iter()
        .all(|(name, letter)| alphabet.letter(name) == *letter)
}

#[test]
fn numbered_alphabets(rt: HostRuntime) -> Result<(), Fail> {
    for (n, taken) in [(0u8, false), (1, true), (16, true), (17, false)].iter() {
        assert_eq!(rt; Numbered::new(*n).is_ok(), *taken);
    }
    assert_eq!(rt; AlphabetRefusal::Letters.number(), 10);
    let alphabet = Numbered::new(16)?;
    let names: [(&[u8], Option<u8>); 5] = [
        (b"0", Some(0)),
        (b"00", None),
        (b"15", Some(15)),
        (b"16", None),
        (b"", None),
    ];
    assert!(rt; has_names(&alphabet, &names));
    assert_eq!(rt; alphabet.letters(), 16);
    assert!(rt; alphabet.valid(15) && !alphabet.valid(16));
    assert!(rt; alphabet.holds(15, 15) && !alphabet.holds(15, 14));
    assert_eq!(rt; letters_of(&alphabet, 3).bits, 8);
    Ok(())
}

#[test]
fn service_names(rt: HostRuntime) {
    let names: [(&[u8], Option<u8>); 18] = [
        (b"alive", Some(0)),
        (b"session", Some(1)),
        (b"reset", Some(2)),
        (b"clear", Some(3)),
        (b"codes", Some(4)),
        (b"read", Some(5)),
        (b"unlock", Some(6)),
        (b"quiet", Some(7)),
        (b"write", Some(8)),
        (b"drive", Some(9)),
        (b"routine", Some(10)),
        (b"download", Some(11)),
        (b"transfer", Some(12)),
        (b"exit", Some(13)),
        (b"codeset", Some(14)),
        (b"refused", Some(15)),
        (b"code", None),
        (b"", None),
    ];
    assert!(rt; has_names(&Service, &names));
    assert_eq!(rt; Service.letters(), 16);
}

#[test]
fn service_codes(rt: HostRuntime) {
    let codes = [(0u32, false), (1, true), (65_535, true), (65_536, false)];
    for (code, valid) in codes.iter() {
        assert_eq!(rt; Service.valid(*code), *valid);
        assert_eq!(rt; Service.holds(*code, 0), *valid && code % 2 == 1);
    }
    assert!(rt; Service.holds(32_768, 15) && !Service.holds(32_768, 16));
    assert_eq!(rt; letters_of(&Service, 65_535).bits, 65_535);
    assert_eq!(rt; letters_of(&Service, 65_536).bits, 0);
}
