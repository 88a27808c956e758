// The trailer's day: unhook, tip 400 kilos then, and weigh ten minutes or more after.
use bunker_laws::settings::Settings;
use model::refusals::Refusal;
use model::slips::{Distance, Use};
use output::writing::write_day;
use rules::limit::Limit;
use rules::rule::Rule;
use sheet::sheets::Sheet;
use std::alloc::Global;
use std::test::Fail;
use yard::yards::{HORIZON, Yard, build_yard};

const OUTPUT: &[u8] =
    b"label earliest latest\nopening 0 0\nunhook 0 1430\nweigh 10 1440\n\nverdict loose\nany 2\n";

// The day, not tightened yet.
fn posted(heap: Global) -> Result<Sheet<Yard>, Fail> {
    let first = Settings::new(0, 1_000, 0)?;
    let second = Settings::new(0, 500, 500)?;
    let yard = build_yard(heap, first, second)?;
    let mut sheet = Sheet::rule(heap, yard, HORIZON).map_err(|_| Fail::new("not ruled"))?;
    sheet.name(b"unhook")?;
    sheet.name(b"weigh")?;
    let gap = Distance::new(2, 1, -10);
    sheet.post_distance(1, gap)?;
    let tip = Use::new(1, 1, 400);
    sheet.post_use(0, 1, tip)?;
    Ok(sheet)
}

#[test]
fn whole_output(rt: HostRuntime) -> Result<(), Fail> {
    let mut sheet = posted(rt.alloc())?;
    let mut short = [b'#'; 82];
    assert_eq!(rt; write_day(&sheet, &mut short), Err(Refusal::NotTightened));
    let _ = sheet.tighten();
    assert_eq!(rt; write_day(&sheet, &mut short), Err(Refusal::BufferShort));
    assert_eq!(rt; short, [b'#'; 82]);
    let mut buffer = [b'#'; 90];
    assert_eq!(rt; write_day(&sheet, &mut buffer), Ok(83));
    assert_eq!(rt; &buffer[0..83], OUTPUT);
    assert_eq!(rt; &buffer[83..90], b"#######".as_slice());
    Ok(())
}

#[test]
fn no_plan(rt: HostRuntime) -> Result<(), Fail> {
    let mut sheet = posted(rt.alloc())?;
    let back = Distance::new(1, 2, 9);
    sheet.post_distance(2, back)?;
    let _ = sheet.tighten();
    let mut buffer = [b'#'; 23];
    assert_eq!(rt; write_day(&sheet, &mut buffer), Ok(23));
    assert_eq!(rt; &buffer[0..23], b"verdict loose\nnoplan 0\n".as_slice());
    Ok(())
}
