// A day through posting, tightening, looking, withdrawing and tightening again.
use bunker_laws::settings::Settings;
use model::moments::Moment;
use model::refusals::Refusal;
use model::slips::{Distance, Use};
use model::verdicts::Verdict;
use rules::limit::Limit;
use rules::rule::Rule;
use runs::answers::Answer;
use sheet::sheets::Sheet;
use std::alloc::Global;
use std::test::Fail;
use yard::yards::{HORIZON, Yard, build_yard};

// Two bunkers from 0 to 1,000 kilos, the first empty and the second with 500, and a weighbridge; 1,440 minutes.
fn ruled(heap: Global) -> Result<Sheet<Yard>, Fail> {
    let first = Settings::new(0, 1_000, 0)?;
    let second = Settings::new(0, 1_000, 500)?;
    let yard = build_yard(heap, first, second)?;
    let sheet = Sheet::rule(heap, yard, HORIZON).map_err(Refusal::from)?;
    Ok(sheet)
}

// That the point p lies between two minutes, by the slips of these numbers.
fn window(
    sheet: &mut Sheet<Yard>,
    number: u32,
    p: usize,
    earliest: i32,
    latest: i32,
) -> Result<(), Refusal> {
    sheet.post_distance(number, Distance::new(0, p, latest))?;
    sheet.post_distance(
        number.saturating_add(1),
        Distance::new(p, 0, earliest.saturating_neg()),
    )
}

// Points 1 and 2 bring 400 kilos and take them: 1 in 0-50, 2 in 20-60. The bridge is crossed from 0 to 3 and from 4 to 5: 3 at 10,
// 4 in 5-30 and 5 five minutes after 4.
fn posted(heap: Global) -> Result<Sheet<Yard>, Fail> {
    let mut sheet = ruled(heap)?;
    for label in [b"p1", b"p2", b"p3", b"p4", b"p5"] {
        sheet.name(label)?;
    }
    window(&mut sheet, 1, 1, 0, 50)?;
    window(&mut sheet, 3, 2, 20, 60)?;
    window(&mut sheet, 5, 3, 10, 10)?;
    window(&mut sheet, 7, 4, 5, 30)?;
    sheet.post_distance(9, Distance::new(4, 5, 5))?;
    sheet.post_distance(10, Distance::new(5, 4, -5))?;
    sheet.post_use(0, 1, Use::new(1, 1, 400))?;
    sheet.post_use(0, 2, Use::new(2, 2, -400))?;
    sheet.post_use(2, 1, Use::new(0, 3, 0))?;
    sheet.post_use(2, 2, Use::new(4, 5, 0))?;
    Ok(sheet)
}

#[test]
fn tightened_and_looked_at(rt: HostRuntime) -> Result<(), Fail> {
    let mut sheet = posted(rt.alloc())?;
    assert_eq!(rt; sheet.bound(0, 1), Err(Refusal::NotTightened));
    let four_loose = Answer {
        verdict: Verdict::AnyPlan,
        loose: 0b110110,
        count: 4,
    };
    assert_eq!(rt; sheet.tighten(), four_loose);
    assert_eq!(rt; sheet.bound(0, 1), Ok(50));
    assert_eq!(rt; sheet.bound(2, 1), Ok(0));
    assert_eq!(rt; sheet.bound(4, 0), Ok(-10));
    assert_eq!(rt; sheet.bound(5, 0), Ok(-15));
    assert_eq!(rt; sheet.bound(6, 0), Err(Refusal::NoPoint));
    assert_eq!(rt; sheet.levels(0, Moment::Point(2)), Ok(Some((0, 0))));
    assert_eq!(rt; sheet.levels(0, Moment::Minute(19)), Ok(Some((400, 0))));
    assert_eq!(rt;
        sheet.levels(1, Moment::Minute(1_440)),
        Ok(Some((500, 500)))
    );
    assert_eq!(rt; sheet.levels(2, Moment::Minute(0)), Ok(None));
    assert_eq!(rt;
        sheet.levels(0, Moment::Minute(1_441)),
        Err(Refusal::BadMinute)
    );
    assert_eq!(rt; sheet.levels(3, Moment::Minute(0)), Err(Refusal::NoPlace));
    Ok(())
}

#[test]
fn withdrawn_and_tightened_again(rt: HostRuntime) -> Result<(), Fail> {
    let mut sheet = posted(rt.alloc())?;
    let _ = sheet.tighten();
    sheet.withdraw_use(0, 2)?;
    assert_eq!(rt; sheet.bound(2, 1), Err(Refusal::NotTightened));
    assert_eq!(rt; sheet.tighten().verdict, Verdict::AnyPlan);
    assert_eq!(rt; sheet.bound(2, 1), Ok(30));
    assert_eq!(rt; sheet.levels(0, Moment::Point(2)), Ok(Some((400, 0))));
    sheet.withdraw_distance(7)?;
    sheet.withdraw_distance(8)?;
    sheet.withdraw_use(2, 1)?;
    let _ = sheet.tighten();
    assert_eq!(rt; sheet.bound(4, 0), Ok(0));
    assert_eq!(rt; sheet.bound(0, 4), Ok(1_435));
    Ok(())
}

#[test]
fn clash_is_no_plan(rt: HostRuntime) -> Result<(), Fail> {
    let mut sheet = posted(rt.alloc())?;
    sheet.post_distance(11, Distance::new(2, 1, 0))?;
    sheet.post_distance(12, Distance::new(1, 2, -1))?;
    let no_plan = Answer {
        verdict: Verdict::NoPlan,
        loose: 0,
        count: 0,
    };
    assert_eq!(rt; sheet.tighten(), no_plan);
    assert_eq!(rt; sheet.bound(0, 1), Err(Refusal::NoPlan));
    assert_eq!(rt;
        sheet.post_distance(12, Distance::new(1, 2, 0)),
        Err(Refusal::NumberStands)
    );
    assert_eq!(rt; sheet.bound(0, 1), Err(Refusal::NoPlan));
    Ok(())
}

#[test]
fn refused_calls_in_order(rt: HostRuntime) -> Result<(), Fail> {
    let mut sheet = ruled(rt.alloc())?;
    assert_eq!(rt; sheet.name(b"opening"), Err(Refusal::LabelTaken));
    assert_eq!(rt; sheet.name(b""), Err(Refusal::BadLabel));
    assert_eq!(rt; sheet.name(b"gate"), Ok(1));
    let far = Distance::new(0, 2, 2_000);
    assert_eq!(rt; sheet.post_distance(0, far), Err(Refusal::BadSlipNumber));
    assert_eq!(rt; sheet.post_distance(1, far), Err(Refusal::NoPoint));
    assert_eq!(rt;
        sheet.post_distance(1, Distance::new(1, 1, 2_000)),
        Err(Refusal::SamePoint)
    );
    assert_eq!(rt;
        sheet.post_distance(1, Distance::new(0, 1, 2_000)),
        Err(Refusal::BadDistance)
    );
    assert_eq!(rt;
        sheet.post_use(3, 0, Use::new(9, 9, 0)),
        Err(Refusal::NoPlace)
    );
    assert_eq!(rt;
        sheet.post_use(0, 0, Use::new(9, 9, 0)),
        Err(Refusal::BadSlipNumber)
    );
    assert_eq!(rt;
        sheet.post_use(0, 1, Use::new(9, 9, 0)),
        Err(Refusal::NoPoint)
    );
    assert_eq!(rt;
        sheet.post_use(0, 1, Use::new(1, 1, 0)),
        Err(Refusal::BadUse)
    );
    assert_eq!(rt; sheet.withdraw_distance(1), Err(Refusal::NotStanding));
    assert_eq!(rt; sheet.withdraw_use(3, 1), Err(Refusal::NoPlace));
    assert_eq!(rt; sheet.withdraw_use(0, 1), Err(Refusal::NotStanding));
    Ok(())
}
