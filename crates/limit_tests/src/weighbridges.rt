// A weighbridge, alone and in a pair.
use crate::tables_asked::{closed, no_bounds, open_table, window};
use bunker::bunkers::Bunker;
use model::moments::Moment;
use model::refusals::Refusal;
use model::slips::Use;
use rules::limit::Limit;
use rules::pair::Pair;
use rules::rule::Rule;
use std::test::Fail;
use weighbridge::weighbridges::Weighbridge;

fn crossing(first: usize, last: usize) -> Use {
    Use::new(first, last, 0)
}

// One crossing from 0 to 10, one from b in 5-30 for five minutes: the second begins when the first has ended.
#[test]
fn crossings_take_turns(rt: HostRuntime) -> Result<(), Fail> {
    let mut bridge = Weighbridge::new(rt.alloc())?;
    bridge.take(0, 1, crossing(0, 1))?;
    bridge.take(0, 2, crossing(2, 3))?;
    let mut table = open_table(4)?;
    window(&mut table, 1, 10, 10);
    window(&mut table, 2, 5, 30);
    table.lower(2, 3, 5);
    table.lower(3, 2, -5);
    let table = closed(&table)?;
    let mut bounds = no_bounds(&table)?;
    assert!(rt; !bridge.refuses(&table));
    assert!(rt; !bridge.vouches(&table));
    bridge.lower(&table, &mut bounds);
    assert_eq!(rt; bounds.get(2, 1), 0);
    assert_eq!(rt; bounds.get(0, 3), 10_080);
    assert_eq!(rt; bounds.get(1, 0), 0);
    assert_eq!(rt; bridge.levels(&table, 0, Moment::Minute(0)), None);
    Ok(())
}

// Two crossings that are both under way at minute 7.
#[test]
fn overlap_is_refused(rt: HostRuntime) -> Result<(), Fail> {
    let mut bridge = Weighbridge::new(rt.alloc())?;
    bridge.take(0, 1, crossing(0, 1))?;
    bridge.take(0, 2, crossing(2, 3))?;
    let mut table = open_table(4)?;
    window(&mut table, 1, 10, 10);
    window(&mut table, 2, 5, 7);
    window(&mut table, 3, 8, 12);
    let table = closed(&table)?;
    assert!(rt; bridge.refuses(&table));
    Ok(())
}

// The places of a pair, and what it passes on by place.
#[test]
fn pair_goes_by_place(rt: HostRuntime) -> Result<(), Fail> {
    let left = Bunker::new(rt.alloc(), 0, 10, 5)?;
    let right = Weighbridge::new(rt.alloc())?;
    let mut pair = Pair { left, right };
    assert_eq!(rt; pair.places(), 2);
    assert_eq!(rt; pair.most_uses(0), 32);
    assert_eq!(rt; pair.most_uses(1), 16);
    assert_eq!(rt; pair.most_uses(2), 0);
    assert_eq!(rt; pair.take(2, 1, crossing(1, 2)), Err(Refusal::NoPlace));
    assert_eq!(rt; pair.take(0, 1, crossing(1, 2)), Err(Refusal::BadUse));
    assert_eq!(rt; pair.take(1, 1, crossing(1, 1)), Err(Refusal::BadUse));
    assert_eq!(rt; pair.take(1, 1, crossing(1, 2)), Ok(()));
    assert!(rt; pair.any_use());
    let table = closed(&open_table(3)?)?;
    let mut bounds = no_bounds(&table)?;
    assert_eq!(rt; pair.levels(&table, 0, Moment::Point(1)), Some((5, 5)));
    assert_eq!(rt; pair.levels(&table, 1, Moment::Point(1)), None);
    pair.lower(&table, &mut bounds);
    assert_eq!(rt; bounds.get(2, 1), 0);
    assert_eq!(rt; pair.give_up(0, 1), Err(Refusal::NotStanding));
    assert_eq!(rt; pair.give_up(1, 1), Ok(()));
    assert!(rt; !pair.any_use());
    Ok(())
}
