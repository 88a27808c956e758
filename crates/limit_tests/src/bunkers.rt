// Each way in which a bunker refuses, vouches or bounds, on a table worked out by hand.
use crate::tables_asked::{closed, no_bounds, open_table, window};
use bunker::bunkers::Bunker;
use model::moments::Moment;
use model::refusals::Refusal;
use model::slips::Use;
use rules::limit::Limit;
use rules::rule::Rule;
use std::test::Fail;

// A delivery of 400 and one of -400 from an empty bunker: the first has to come by the second.
#[test]
fn floor_orders_two_deliveries(rt: HostRuntime) -> Result<(), Fail> {
    let mut bunker = Bunker::new(rt.alloc(), 0, 1_000, 0)?;
    bunker.take(0, 1, Use::new(1, 1, 400))?;
    bunker.take(0, 2, Use::new(2, 2, -400))?;
    let mut table = open_table(3)?;
    window(&mut table, 1, 0, 50);
    window(&mut table, 2, 20, 60);
    let table = closed(&table)?;
    let mut bounds = no_bounds(&table)?;
    assert_eq!(rt; bunker.levels(&table, 0, Moment::Point(2)), Some((0, -400)));
    assert_eq!(rt; bunker.levels(&table, 1, Moment::Point(2)), None);
    assert!(rt; !bunker.refuses(&table));
    assert!(rt; !bunker.vouches(&table));
    bunker.lower(&table, &mut bounds);
    assert_eq!(rt; bounds.get(2, 1), 0);
    assert_eq!(rt; bounds.get(1, 2), 10_080);
    assert_eq!(rt; bounds.get(0, 1), 10_080);
    Ok(())
}

// 300 in the bunker, 400 to come and 250 to go, and room for 500: the 250 have to go by the time the 400 come.
#[test]
fn roof_orders_two_deliveries(rt: HostRuntime) -> Result<(), Fail> {
    let mut bunker = Bunker::new(rt.alloc(), 0, 500, 300)?;
    bunker.take(0, 1, Use::new(1, 1, 400))?;
    bunker.take(0, 2, Use::new(2, 2, -250))?;
    let table = closed(&open_table(3)?)?;
    let mut bounds = no_bounds(&table)?;
    assert_eq!(rt;
        bunker.levels(&table, 0, Moment::Point(1)),
        Some((700, 450))
    );
    bunker.lower(&table, &mut bounds);
    assert_eq!(rt; bounds.get(1, 2), 0);
    Ok(())
}

// 8 kilos leave a bunker of 5 at some minute: no plan, and no minute is early enough.
#[test]
fn too_little_is_refused(rt: HostRuntime) -> Result<(), Fail> {
    let mut bunker = Bunker::new(rt.alloc(), 0, 10, 5)?;
    bunker.take(0, 7, Use::new(1, 1, -8))?;
    let table = closed(&open_table(2)?)?;
    let mut bounds = no_bounds(&table)?;
    assert_eq!(rt;
        bunker.levels(&table, 0, Moment::Minute(1_440)),
        Some((-3, -3))
    );
    assert!(rt; bunker.refuses(&table));
    bunker.lower(&table, &mut bounds);
    assert_eq!(rt; bounds.get(1, 0), -1_440);
    Ok(())
}

// 8 kilos more on 5 are too much for 10.
#[test]
fn too_much_is_refused(rt: HostRuntime) -> Result<(), Fail> {
    let mut bunker = Bunker::new(rt.alloc(), 0, 10, 5)?;
    bunker.take(0, 7, Use::new(1, 1, 8))?;
    let table = closed(&open_table(2)?)?;
    assert_eq!(rt; bunker.levels(&table, 0, Moment::Minute(0)), Some((13, 5)));
    assert!(rt; bunker.refuses(&table));
    Ok(())
}

// One forklift: lent from 0 to 10, and from a in 5-30 to ten minutes later. The second loan begins after minute 9.
#[test]
fn loan_waits_for_another(rt: HostRuntime) -> Result<(), Fail> {
    let mut bunker = Bunker::new(rt.alloc(), 0, 1, 1)?;
    bunker.take(0, 1, Use::new(0, 1, 1))?;
    bunker.take(0, 2, Use::new(2, 3, 1))?;
    let mut table = open_table(4)?;
    window(&mut table, 1, 10, 10);
    window(&mut table, 2, 5, 30);
    table.lower(2, 3, 10);
    table.lower(3, 2, -10);
    let table = closed(&table)?;
    let mut bounds = no_bounds(&table)?;
    assert_eq!(rt; bunker.levels(&table, 0, Moment::Minute(9)), Some((0, -1)));
    bunker.lower(&table, &mut bounds);
    assert_eq!(rt; bounds.get(2, 0), -10);
    assert_eq!(rt; bounds.get(3, 2), 0);
    Ok(())
}

// Full at 10, with 3 more at minute 20 and 3 less at minute 40: a loan of 3 has to be out from 20 until after 39.
#[test]
fn loan_has_to_be_out(rt: HostRuntime) -> Result<(), Fail> {
    let mut bunker = Bunker::new(rt.alloc(), 0, 10, 10)?;
    bunker.take(0, 1, Use::new(1, 1, 3))?;
    bunker.take(0, 2, Use::new(2, 2, -3))?;
    bunker.take(0, 3, Use::new(3, 4, 3))?;
    let mut table = open_table(5)?;
    window(&mut table, 1, 20, 20);
    window(&mut table, 2, 40, 40);
    window(&mut table, 3, 0, 30);
    window(&mut table, 4, 15, 60);
    let table = closed(&table)?;
    let mut bounds = no_bounds(&table)?;
    assert!(rt; !bunker.refuses(&table));
    bunker.lower(&table, &mut bounds);
    assert_eq!(rt; bounds.get(0, 3), 20);
    assert_eq!(rt; bounds.get(4, 0), -40);
    Ok(())
}

// 10 less at minute 30: a loan of 5 that began at 0 is over by then.
#[test]
fn loan_ends_in_time(rt: HostRuntime) -> Result<(), Fail> {
    let mut bunker = Bunker::new(rt.alloc(), 0, 20, 10)?;
    bunker.take(0, 1, Use::new(1, 1, -10))?;
    bunker.take(0, 2, Use::new(0, 2, 5))?;
    let mut table = open_table(3)?;
    window(&mut table, 1, 30, 30);
    window(&mut table, 2, 0, 60);
    let table = closed(&table)?;
    let mut bounds = no_bounds(&table)?;
    bunker.lower(&table, &mut bounds);
    assert_eq!(rt; bounds.get(0, 2), 30);
    Ok(())
}

// A loan that would end before it begins is refused.
#[test]
fn reversed_loan_is_refused(rt: HostRuntime) -> Result<(), Fail> {
    let mut bunker = Bunker::new(rt.alloc(), 0, 20, 10)?;
    bunker.take(0, 1, Use::new(1, 2, 5))?;
    let mut table = open_table(3)?;
    window(&mut table, 1, 50, 60);
    window(&mut table, 2, 20, 40);
    let table = closed(&table)?;
    assert!(rt; bunker.refuses(&table));
    Ok(())
}

// Settled points are vouched for.
#[test]
fn settled_is_vouched_for(rt: HostRuntime) -> Result<(), Fail> {
    let mut bunker = Bunker::new(rt.alloc(), 0, 1_000, 0)?;
    bunker.take(0, 1, Use::new(1, 1, 400))?;
    bunker.take(0, 2, Use::new(2, 2, -400))?;
    let mut table = open_table(3)?;
    window(&mut table, 1, 20, 20);
    window(&mut table, 2, 20, 20);
    let table = closed(&table)?;
    assert!(rt; bunker.vouches(&table));
    assert_eq!(rt; bunker.levels(&table, 0, Moment::Minute(19)), Some((0, 0)));
    assert_eq!(rt; bunker.levels(&table, 0, Moment::Minute(20)), Some((0, 0)));
    Ok(())
}

// Taking and giving up, with each refusal in its order.
#[test]
fn uses_come_and_go(rt: HostRuntime) -> Result<(), Fail> {
    assert!(rt; Bunker::new(rt.alloc(), 5, 10, 4).is_err());
    let mut bunker = Bunker::new(rt.alloc(), 0, 10, 5)?;
    assert!(rt; !bunker.any_use());
    assert_eq!(rt;
        bunker.take(1, 0, Use::new(64, 0, 0)),
        Err(Refusal::NoPlace)
    );
    assert_eq!(rt; bunker.take(0, 0, Use::new(1, 1, 5)), Err(Refusal::BadUse));
    assert_eq!(rt; bunker.take(0, 1, Use::new(64, 1, 5)), Err(Refusal::BadUse));
    assert_eq!(rt; bunker.take(0, 1, Use::new(1, 1, 0)), Err(Refusal::BadUse));
    assert_eq!(rt;
        bunker.take(0, 1, Use::new(1, 1, 1_000_001)),
        Err(Refusal::BadUse)
    );
    assert_eq!(rt; bunker.take(0, 1, Use::new(1, 1, 5)), Ok(()));
    assert_eq!(rt;
        bunker.take(0, 1, Use::new(2, 2, 5)),
        Err(Refusal::NumberStands)
    );
    for k in 2..33 {
        assert_eq!(rt; bunker.take(0, k, Use::new(1, 1, 5)), Ok(()));
    }
    assert_eq!(rt;
        bunker.take(0, 40, Use::new(1, 1, 5)),
        Err(Refusal::UsesFull(32))
    );
    assert_eq!(rt; bunker.give_up(1, 1), Err(Refusal::NoPlace));
    assert_eq!(rt; bunker.give_up(0, 40), Err(Refusal::NotStanding));
    assert_eq!(rt; bunker.give_up(0, 1), Ok(()));
    assert_eq!(rt; bunker.take(0, 1, Use::new(2, 2, 5)), Ok(()));
    assert!(rt; bunker.any_use());
    Ok(())
}
