// The trailer's day, and the same with one thing wrong.
use crate::printed::values;
use dayfile::faults::{DayFile, Fault};
use dayfile::files::DayFiles;
use dayfile::lines::faulty_line;
use dayfile::reading::read_day;
use model::refusals::Refusal;
use std::alloc::{AllocError, Global};
use std::test::Fail;

const BRIDGE: &[u8] = b"label\nunhook\nweigh\n\nslip from to minutes\n1 weigh unhook -10\n";

const HALL: &[u8] =
    b"floor roof start\n0 1000 0\n0 500 500\n\nplace slip first last kilos\n0 1 unhook unhook 400\n";

// The fault at which the reading of two files ends.
fn read<'a>(
    heap: Global,
    bridge: &'a [u8],
    hall: &'a [u8],
) -> Result<Option<(u8, usize, u8)>, AllocError> {
    let day = read_day(heap, DayFiles { bridge, hall })?;
    Ok(day.reading.fault.map(values))
}

#[test]
fn the_trailer(rt: HostRuntime) -> Result<(), Fail> {
    let files = DayFiles {
        bridge: BRIDGE,
        hall: HALL,
    };
    let reading = read_day(rt.alloc(), files)?.reading;
    assert_eq!(rt; reading.bunkers.len(), 2);
    assert_eq!(rt; reading.calls.len(), 4);
    assert_eq!(rt; reading.first_fault(None, None, None), None);
    let slip = Some((2, Refusal::BadDistance));
    assert_eq!(rt;
        reading.first_fault(None, None, slip).map(values),
        Some((1, 6, 10))
    );
    let bad = Some(Refusal::BadSettings);
    assert_eq!(rt;
        reading.first_fault(None, bad, slip).map(values),
        Some((2, 3, 2))
    );
    Ok(())
}

#[test]
fn a_file_that_does_not_end(rt: HostRuntime) -> Result<(), Fail> {
    assert_eq!(rt;
        read(rt.alloc(), BRIDGE, b"floor roof start")?,
        Some((2, 0, 17))
    );
    Ok(())
}

#[test]
fn a_line_that_is_not_due(rt: HostRuntime) -> Result<(), Fail> {
    let heap = rt.alloc();
    assert_eq!(rt; read(heap, b"label\nunhook\n", HALL)?, Some((1, 3, 18)));
    assert_eq!(rt; read(heap, b"label \n", HALL)?, Some((1, 1, 18)));
    let short = b"floor roof start\n0 1 0\n0 1 0\n";
    assert_eq!(rt; read(heap, BRIDGE, short)?, Some((2, 4, 18)));
    let third = b"floor roof start\n0 1 0\n0 1 0\n0 1 0\n";
    assert_eq!(rt; read(heap, b"label\n", third)?, Some((2, 4, 18)));
    Ok(())
}

#[test]
fn a_count_of_fields(rt: HostRuntime) -> Result<(), Fail> {
    assert_eq!(rt;
        read(rt.alloc(), b"label\nunhook now\n", HALL)?,
        Some((1, 2, 19))
    );
    Ok(())
}

#[test]
fn a_number(rt: HostRuntime) -> Result<(), Fail> {
    let heap = rt.alloc();
    assert_eq!(rt;
        read(heap, BRIDGE, b"floor roof start\n0 01 0\n")?,
        Some((2, 2, 20))
    );
    let large = b"floor roof start\n0 100000001 0\n";
    assert_eq!(rt; read(heap, BRIDGE, large)?, Some((2, 2, 20)));
    Ok(())
}

#[test]
fn an_unknown_label(rt: HostRuntime) -> Result<(), Fail> {
    let unknown = b"label\nweigh\n\nslip from to minutes\n1 weigh unhok -10\n";
    assert_eq!(rt; read(rt.alloc(), unknown, HALL)?, Some((1, 5, 21)));
    let fault = Fault {
        file: DayFile::Bridge,
        line: 5,
        refusal: Refusal::UnknownLabel,
    };
    let files = DayFiles {
        bridge: unknown,
        hall: HALL,
    };
    assert_eq!(rt; faulty_line(files, fault), b"1 weigh unhok -10".as_slice());
    Ok(())
}
