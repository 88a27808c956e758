// The sheet itself. What is done with it stands in the modules below.
ghost use Rattle.std.specs.Prelude.{◌≡◌, ℕ, ◌<◌, ◌≤◌, Bool, Some, vec_len, vec_capacity};
ghost use Rattle.model.specs.declared.slips.Distance.{Distance};
ghost use Rattle.register.specs.Standing.{stands};
ghost use Rattle.sheet.specs.declared.sheets.Shown.TheVariants.{Bounds};
ghost use Rattle.tables.specs.Views.{table_view};
ghost use Rattle.tables.specs.declared.tables.Table.{Table};

pub use self::ruling::NotRuled;
use model::labels::Label;
use model::slips::Distance;
use register::registers::Register;
use tables::tables::Table;

mod closing;
mod looking;
mod naming;
mod playing;
mod posting;
mod ruling;
mod withdrawing;

// The most distance slips that stand.
pub const MOST_SLIPS: usize = 256;

// What a sheet shows.
#[derive(Clone, Copy)]
pub(crate) enum Shown {
    // not tightened since ruling or the last change
    Nothing,
    // tightened, and no table is closed
    NoPlan,
    // the tightened table, and whether every limit vouches for it; a flag, as a verdict here could be "no plan"
    Bounds(Table, bool),
}

// A sheet over limits of the type L.
#[derive(Drop)]
pub struct Sheet<L> {
    pub(crate) limits: L,
    pub(crate) horizon: u32,
    // by the points' numbers
    pub(crate) labels: Vec<Label>,
    pub(crate) slips: Register<Distance, MOST_SLIPS>,
    pub(crate) shown: Shown,
    ghost ahead: { 1 ≤ horizon },
    ghost near: { horizon ≤ 10080 },
    ghost opened: { 1 ≤ vec_len labels },
    ghost few: { vec_len labels ≤ 64 },
    ghost room: { 64 ≤ vec_capacity labels },
    ghost from_held: { (k : ℕ) (s : Distance) → stands slips k ≡ Some s → s.from < vec_len labels },
    ghost to_held: { (k : ℕ) (s : Distance) → stands slips k ≡ Some s → s.to < vec_len labels },
    ghost whole: { (t : Table) (any : Bool) → shown ≡ Bounds t any → (table_view t).points ≡ vec_len labels },
}
