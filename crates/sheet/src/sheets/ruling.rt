// Ruling a sheet.
ghost use Rattle.std.specs.Prelude.{◌≡◌, MatchResult};
ghost use Rattle.register.specs.Lookups.{nothing};
ghost use Rattle.register.specs.Standing.{stands};
ghost use Rattle.rules.specs.Calls.{AnyUse};
ghost use Rattle.runs.specs.Shown.{Shown as Seen};
ghost use Rattle.sheet.specs.Rulings.{InDay, NotRuledFor, NotRuledOver, FirstLabels, ruled_day};
ghost use Rattle.sheet.specs.Sheets.{shown_of, sheet_day};

use super::{MOST_SLIPS, Sheet, Shown};
use model::labels::{Label, MOST_POINTS, OPENING};
use model::moments::LAST_MINUTE;
use model::refusals::Refusal;
use model::slips::Distance;
use register::registers::Register;
use rules::limit::Limit;
use rules::rule::Rule;
use std::alloc::Global;

// A sheet that was not ruled: the limits as they were, and why.
#[derive(Drop)]
pub struct NotRuled<L> {
    pub limits: L,
    pub refusal: Refusal,
}

impl<L: Drop> From<NotRuled<L>> for Refusal {
    ghost from_gives = { λ e r. r ≡ e.refusal };

    fn from(not_ruled: NotRuled<L>) -> Refusal {
        not_ruled.refusal
    }
}

// The labels of a newly ruled sheet, with room for all that it may have.
fn first_labels(heap: Global) -> Result<Vec<Label>, Refusal>
    ensures { FirstLabels result }
{
    let mut labels = Vec::with_capacity(heap, MOST_POINTS)?;
    // cannot fail: the room is claimed above
    let _ = labels.push(Label::new(OPENING)?);
    Ok(labels)
}

// The labels of a newly ruled sheet and a register for its slips, or why no sheet of so many minutes is ruled over the limits.
fn first_labels_and_slips<L: Limit>(
    heap: Global,
    limits: &L,
    horizon: u32,
) -> Result<(Vec<Label>, Register<Distance, MOST_SLIPS>), Refusal>
    ensures { MatchResult result (λ x. InDay horizon × (AnyUse (L.Rule.uses limits.now) → ⊥) × FirstLabels (Ok x.0) × (stands x.1 ≡ nothing)) (NotRuledFor horizon (L.Rule.uses limits.now)) }
{
    if !(1..=LAST_MINUTE).contains(&horizon) {
        return Err(Refusal::BadHorizon);
    }
    if limits.any_use() {
        return Err(Refusal::UsesStand);
    }
    let labels = first_labels(heap)?;
    let slips = Register::new(heap)?;
    Ok((labels, slips))
}

impl<L: Limit> Sheet<L> {
    // Rules a sheet of so many minutes over limits in which no use stands: point 0 alone, labelled `opening`, no slip, not tightened.
    // It claims all the memory that the sheet will ever need.
    pub fn rule(heap: Global, limits: L, horizon: u32) -> Result<Sheet<L>, NotRuled<L>>
        ensures { MatchResult result (λ s. InDay horizon × (AnyUse (L.Rule.uses limits) → ⊥) × (sheet_day L.Limit s ≡ ruled_day L.Limit horizon limits) × (shown_of s ≡ Seen.nothing)) (NotRuledOver L.Limit horizon limits) }
    {
        // a match, as either arm takes the limits, which the closure of a `map_err` would take before the sheet could
        match first_labels_and_slips(heap, &limits, horizon) {
            Ok((labels, slips)) => Ok(Sheet {
                limits,
                horizon,
                labels,
                slips,
                shown: Shown::Nothing,
            }),
            Err(refusal) => Err(NotRuled { limits, refusal }),
        }
    }
}
