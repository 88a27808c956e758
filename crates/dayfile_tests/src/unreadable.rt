// Files that are missing, too long or unended are answered by 17, hall.day before bridge.day.
use crate::printed::values;
use dayfile::files::check_files;
use std::test::Fail;

// The printed values of the fault of two files.
fn values_of(bridge: Option<&[u8]>, hall: Option<&[u8]>) -> Option<(u8, usize, u8)> {
    check_files(bridge, hall).err().map(values)
}

#[test]
fn both_are_there(rt: HostRuntime) {
    assert_eq!(rt; values_of(Some(b"\n"), Some(b"a\n")), None);
}

#[test]
fn one_is_missing(rt: HostRuntime) {
    assert_eq!(rt; values_of(Some(b"\n"), None), Some((2, 0, 17)));
    assert_eq!(rt; values_of(None, Some(b"\n")), Some((1, 0, 17)));
    assert_eq!(rt; values_of(None, None), Some((2, 0, 17)));
}

#[test]
fn one_is_unended(rt: HostRuntime) {
    assert_eq!(rt; values_of(Some(b"\n"), Some(b"a")), Some((2, 0, 17)));
    assert_eq!(rt; values_of(Some(b"\na"), Some(b"\n")), Some((1, 0, 17)));
    assert_eq!(rt; values_of(Some(b"\n"), Some(b"")), Some((2, 0, 17)));
}

// The same of two files that are there.
fn values_there(bridge: &[u8], hall: &[u8]) -> Option<(u8, usize, u8)> {
    values_of(Some(bridge), Some(hall))
}

#[test]
fn one_is_a_byte_too_long(rt: HostRuntime) -> Result<(), Fail> {
    let longest = vec![in rt.alloc(); b'\n'; 65_536]?;
    let too_long = vec![in rt.alloc(); b'\n'; 65_537]?;
    assert_eq!(rt; values_there(longest.as_slice(), longest.as_slice()), None);
    assert_eq!(rt;
        values_there(longest.as_slice(), too_long.as_slice()),
        Some((2, 0, 17))
    );
    assert_eq!(rt;
        values_there(too_long.as_slice(), longest.as_slice()),
        Some((1, 0, 17))
    );
    Ok(())
}
