// Calls as values, one and many.
ghost use Rattle.std.specs.Prelude.{◌≡◌};
ghost use Rattle.runs.specs.Days.{after};
ghost use Rattle.runs.specs.Held.{Held};
ghost use Rattle.runs.specs.Runs.{Settled};
ghost use Rattle.runs.specs.Shown.{Shows};
ghost use Rattle.sheet.specs.Replies.{Applied, FirstRefused, AnsweredFor};
ghost use Rattle.sheet.specs.Sheets.{points_of, shown_of, sheet_day, takes_of};

use super::Sheet;
use crate::replies::{Reply, Told};
use rules::limit::Limit;
use rules::rule::Rule;
use runs::calls::Call;

impl<L: Limit> Sheet<L> {
    // Makes one call.
    pub fn apply(&mut self, call: Call<'_>) -> Reply
        ensures { Applied (takes_of L.Limit) L.Rule.meaning (sheet_day L.Limit self.old) (shown_of self.old) (shown_of self.new) call.entry result (sheet_day L.Limit self.new) }
    {
        match call {
            Call::Name(text) => Reply::Named(self.name(text)),
            Call::PostDistance(number, slip) => Reply::Changed(self.post_distance(number, slip)),
            Call::PostUse(place, number, what) => Reply::Changed(self.post_use(
                place, number, what,
            )),
            Call::WithdrawDistance(number) => Reply::Changed(self.withdraw_distance(number)),
            Call::WithdrawUse(place, number) => Reply::Changed(self.withdraw_use(place, number)),
            Call::Tighten => Reply::Tightened(self.tighten()),
            Call::LookBound(i, j) => Reply::Bound(self.bound(i, j)),
            Call::LookLevels(place, at) => Reply::Levels(self.levels(place, at)),
        }
    }

    // Makes the calls one after another. A refused call changes nothing, and the calls after it are made all the same.
    pub fn play(&mut self, calls: &[Call<'_>]) -> Told
        ensures day { sheet_day L.Limit self.new ≡ after (takes_of L.Limit) (sheet_day L.Limit self.old) calls.now }
        ensures refused { FirstRefused (takes_of L.Limit) (sheet_day L.Limit self.old) calls.now result.refused }
        ensures shows { Held (sheet_day L.Limit self.old) → Settled (takes_of L.Limit) (sheet_day L.Limit self.old) calls.now → Shows L.Rule.meaning (sheet_day L.Limit self.new) (shown_of self.new) }
        ensures answer { Settled (takes_of L.Limit) (sheet_day L.Limit self.old) calls.now → AnsweredFor (points_of self.new) (shown_of self.new) result.answer }
    {
        let mut refused = None;
        let mut answer = None;
        for (i, call) in calls.iter().enumerate() {
            let reply = self.apply(*call);
            refused = refused.or(reply.refusal().map(|why| (i, why)));
            answer = reply.answer().or(answer);
        }
        Told { refused, answer }
    }
}
