// Each worked day as a list of calls: what tightening answers, and the looks that tell what it found.
use bunker::bunkers::Bunker;
use model::moments::Moment;
use model::refusals::Refusal;
use model::slips::{Distance, Use};
use model::verdicts::Verdict;
use rules::limit::Limit;
use rules::rule::Rule;
use runs::answers::Answer;
use runs::calls::Call;
use sheet::running::run;
use sheet::sheets::Sheet;
use std::process::Abort;
use std::test::Fail;
use weighbridge::weighbridges::Weighbridge;

// A worked day: its calls, what tightening answers, and bounds that are shown then: from one point to another, so many minutes.
#[derive(Clone, Copy)]
struct Day<'a> {
    calls: &'a [Call<'a>],
    answer: Answer,
    bounds: &'a [(usize, usize, i32)],
}

impl Day<'_> {
    // Plays the day on a sheet of 1,440 minutes: none of its calls is refused, and the answer and the bounds are these.
    fn play<L: Limit + Drop>(
        self,
        rt: &(impl Abort + AllocGlobal),
        limit: L,
    ) -> Result<Sheet<L>, Fail> {
        let played = run(rt.alloc(), limit, 1_440, self.calls).map_err(Refusal::from)?;
        assert_eq!(rt; played.told.refused, None);
        assert_eq!(rt; played.told.answer, Some(self.answer));
        for (i, j, minutes) in self.bounds {
            assert_eq!(rt; played.sheet.bound(*i, *j), Ok(*minutes));
        }
        Ok(played.sheet)
    }
}

fn answer(verdict: Verdict, loose: u64, count: u32) -> Answer {
    Answer {
        verdict,
        loose,
        count,
    }
}

fn post_distance(number: u32, from: usize, to: usize, minutes: i32) -> Call<'static> {
    Call::PostDistance(number, Distance::new(from, to, minutes))
}

fn post_use(number: u32, first: usize, last: usize, kilos: i32) -> Call<'static> {
    Call::PostUse(0, number, Use::new(first, last, kilos))
}

#[test]
fn a_opening_alone(rt: HostRuntime) -> Result<(), Fail> {
    let day = Day {
        calls: &[Call::Tighten],
        answer: answer(Verdict::AnyPlan, 0, 0),
        bounds: &[],
    };
    day.play(&rt, Weighbridge::new(rt.alloc())?)?;
    Ok(())
}

// Points 1 and 2, with 2 at most so many minutes after 1 and at least one.
fn minute_apart(most: i32) -> [Call<'static>; 5] {
    [
        Call::Name(b"p1"),
        Call::Name(b"p2"),
        post_distance(1, 1, 2, most),
        post_distance(2, 2, 1, -1),
        Call::Tighten,
    ]
}

#[test]
fn b_one_minute_after(rt: HostRuntime) -> Result<(), Fail> {
    let day = Day {
        calls: &minute_apart(1),
        answer: answer(Verdict::AnyPlan, 6, 2),
        bounds: &[(1, 2, 1), (2, 1, -1)],
    };
    day.play(&rt, Weighbridge::new(rt.alloc())?)?;
    Ok(())
}

#[test]
fn b_no_minute_after(rt: HostRuntime) -> Result<(), Fail> {
    let day = Day {
        calls: &minute_apart(0),
        answer: answer(Verdict::NoPlan, 0, 0),
        bounds: &[],
    };
    day.play(&rt, Weighbridge::new(rt.alloc())?)?;
    Ok(())
}

// To an empty bunker p brings 400 kilos, and r takes them; each point lies between two minutes.
fn brought_and_taken(p: (i32, i32), r: (i32, i32)) -> [Call<'static>; 9] {
    [
        Call::Name(b"p"),
        Call::Name(b"r"),
        post_distance(1, 0, 1, p.1),
        post_distance(2, 1, 0, p.0.saturating_neg()),
        post_distance(3, 0, 2, r.1),
        post_distance(4, 2, 0, r.0.saturating_neg()),
        post_use(1, 1, 1, 400),
        post_use(2, 2, 2, -400),
        Call::Tighten,
    ]
}

#[test]
fn c_p_by_r(rt: HostRuntime) -> Result<(), Fail> {
    let day = Day {
        calls: &brought_and_taken((0, 50), (20, 60)),
        answer: answer(Verdict::AnyPlan, 6, 2),
        bounds: &[(2, 1, 0)],
    };
    day.play(&rt, Bunker::new(rt.alloc(), 0, 1_000, 0)?)?;
    Ok(())
}

#[test]
fn d_both_at_twenty(rt: HostRuntime) -> Result<(), Fail> {
    let day = Day {
        calls: &brought_and_taken((20, 50), (0, 20)),
        answer: answer(Verdict::AnyPlan, 0, 0),
        bounds: &[(0, 1, 20), (1, 0, -20), (0, 2, 20), (2, 0, -20)],
    };
    day.play(&rt, Bunker::new(rt.alloc(), 0, 1_000, 0)?)?;
    Ok(())
}

#[test]
fn e_a_minute_too_late(rt: HostRuntime) -> Result<(), Fail> {
    let day = Day {
        calls: &brought_and_taken((21, 50), (0, 20)),
        answer: answer(Verdict::NoPlan, 0, 0),
        bounds: &[],
    };
    day.play(&rt, Bunker::new(rt.alloc(), 0, 1_000, 0)?)?;
    Ok(())
}

// One use from opening to minute 10, and one from a point in 5-30 to a point so many minutes later; that point narrows to 10-30.
fn one_after_another<L: Limit + Drop>(
    rt: &(impl Abort + AllocGlobal),
    limit: L,
    minutes: i32,
    kilos: i32,
) -> Result<(), Fail> {
    let day = Day {
        calls: &[
            Call::Name(b"ten"),
            Call::Name(b"a"),
            Call::Name(b"b"),
            post_distance(1, 0, 1, 10),
            post_distance(2, 1, 0, -10),
            post_distance(3, 0, 2, 30),
            post_distance(4, 2, 0, -5),
            post_distance(5, 2, 3, minutes),
            post_distance(6, 3, 2, minutes.saturating_neg()),
            post_use(1, 0, 1, kilos),
            post_use(2, 2, 3, kilos),
            Call::Tighten,
        ],
        answer: answer(Verdict::AnyPlan, 12, 2),
        bounds: &[(2, 0, -10), (0, 2, 30)],
    };
    day.play(rt, limit)?;
    Ok(())
}

#[test]
fn f_loan_after_loan(rt: HostRuntime) -> Result<(), Fail> {
    one_after_another(&rt, Bunker::new(rt.alloc(), 0, 1, 1)?, 10, 1)
}

#[test]
fn g_deliveries_count_apart(rt: HostRuntime) -> Result<(), Fail> {
    let day = Day {
        calls: &[
            Call::Name(b"p"),
            Call::Name(b"r"),
            post_use(1, 1, 1, 300),
            post_use(2, 1, 1, -300),
            post_use(3, 2, 2, -1),
            Call::Tighten,
        ],
        answer: answer(Verdict::Open, 6, 2),
        bounds: &[],
    };
    let sheet = day.play(&rt, Bunker::new(rt.alloc(), 0, 1_000, 900)?)?;
    assert_eq!(rt; sheet.levels(0, Moment::Point(2)), Ok(Some((1_199, 599))));
    Ok(())
}

#[test]
fn h_crossing_after_crossing(rt: HostRuntime) -> Result<(), Fail> {
    one_after_another(&rt, Weighbridge::new(rt.alloc())?, 5, 0)
}

#[test]
fn i_waits_for_the_first(rt: HostRuntime) -> Result<(), Fail> {
    let day = Day {
        calls: &[
            Call::Name(b"p"),
            Call::Name(b"q"),
            Call::Name(b"r"),
            post_distance(1, 0, 1, 20),
            post_distance(2, 1, 0, -20),
            post_distance(3, 0, 2, 30),
            post_distance(4, 2, 0, -30),
            post_distance(5, 0, 3, 60),
            post_distance(6, 3, 0, 0),
            post_use(1, 1, 1, 400),
            post_use(2, 2, 2, 400),
            post_use(3, 3, 3, -400),
            Call::Tighten,
        ],
        answer: answer(Verdict::AnyPlan, 8, 1),
        bounds: &[(3, 0, -20), (0, 3, 60)],
    };
    day.play(&rt, Bunker::new(rt.alloc(), 0, 1_000, 0)?)?;
    Ok(())
}

#[test]
fn j_out_meanwhile(rt: HostRuntime) -> Result<(), Fail> {
    let day = Day {
        calls: &[
            Call::Name(b"p"),
            Call::Name(b"q"),
            Call::Name(b"a"),
            Call::Name(b"b"),
            post_distance(1, 0, 1, 10),
            post_distance(2, 1, 0, -10),
            post_distance(3, 0, 2, 20),
            post_distance(4, 2, 0, -20),
            post_distance(5, 0, 3, 30),
            post_distance(6, 3, 0, 0),
            post_distance(7, 0, 4, 30),
            post_distance(8, 4, 0, 0),
            post_use(1, 1, 1, 1),
            post_use(2, 2, 2, -1),
            post_use(3, 3, 4, 1),
            Call::Tighten,
        ],
        answer: answer(Verdict::AnyPlan, 24, 2),
        bounds: &[(3, 0, 0), (0, 3, 10), (4, 0, -20), (0, 4, 30)],
    };
    day.play(&rt, Bunker::new(rt.alloc(), 0, 1, 1)?)?;
    Ok(())
}

// One use, whose end narrows to 5-1,440.
fn one_use<L: Limit + Drop>(
    rt: &(impl Abort + AllocGlobal),
    limit: L,
    kilos: i32,
) -> Result<(), Fail> {
    let day = Day {
        calls: &[
            Call::Name(b"a"),
            Call::Name(b"b"),
            post_distance(1, 0, 1, 30),
            post_distance(2, 1, 0, -5),
            post_use(1, 1, 2, kilos),
            Call::Tighten,
        ],
        answer: answer(Verdict::AnyPlan, 6, 2),
        bounds: &[(2, 0, -5), (0, 2, 1_440)],
    };
    day.play(rt, limit)?;
    Ok(())
}

#[test]
fn k_ends_after_its_start(rt: HostRuntime) -> Result<(), Fail> {
    one_use(&rt, Weighbridge::new(rt.alloc())?, 0)?;
    one_use(&rt, Bunker::new(rt.alloc(), 0, 1, 1)?, 1)
}

#[test]
fn l_over_by_the_next(rt: HostRuntime) -> Result<(), Fail> {
    let day = Day {
        calls: &[
            Call::Name(b"b"),
            Call::Name(b"ten"),
            Call::Name(b"twenty"),
            post_distance(1, 0, 1, 30),
            post_distance(2, 1, 0, -5),
            post_distance(3, 0, 2, 10),
            post_distance(4, 2, 0, -10),
            post_distance(5, 0, 3, 20),
            post_distance(6, 3, 0, -20),
            post_use(1, 0, 1, 1),
            post_use(2, 2, 3, 1),
            Call::Tighten,
        ],
        answer: answer(Verdict::AnyPlan, 2, 1),
        bounds: &[(1, 0, -5), (0, 1, 10)],
    };
    day.play(&rt, Bunker::new(rt.alloc(), 0, 1, 1)?)?;
    Ok(())
}
