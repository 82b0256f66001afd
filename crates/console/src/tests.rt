use super::*;
use std::io;
use std::test::Fail;

const LEFT: &str = "left_by_a_test.txt";

#[test]
fn a_file_is_read(rt: HostRuntime) -> Result<(), Fail> {
    fs::write(&rt, LEFT, "two\nlines")?;
    let read: Result<Vec<u8>, Failure<&str>> = contents(&rt, LEFT);
    fs::remove_file(&rt, LEFT)?;
    assert_eq!(rt; read?.as_slice(), b"two\nlines".as_slice());
    Ok(())
}

#[test]
fn failures_are_said(rt: HostRuntime) -> Result<(), Fail> {
    let full = || io::Error::from(io::ErrorKind::StorageFull);
    let failures = [
        (
            Failure::Unread("a.txt", full()),
            "a.txt: cannot be read: no storage space",
        ),
        (Failure::Refused("a.txt", "no pattern"), "a.txt: no pattern"),
        (
            Failure::Unwritten(full()),
            "standard output: no storage space",
        ),
    ];
    for (failure, words) in failures.iter() {
        assert_eq!(rt; format!(in rt.alloc(); "{failure}")?.as_str(), *words);
    }
    Ok(())
}
