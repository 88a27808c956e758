// The options of a use at a moment.
ghost use Rattle.std.specs.Prelude.{◌≡◌};
ghost use Rattle.bunker_laws.specs.Bunkers.{delivery, worth as worthOf, can_be_active, can_be_idle};
ghost use Rattle.bunker.specs.Ranges.{Small, Light};
ghost use Rattle.tables.specs.Views.{table_view};

use crate::levels::Levels;
use crate::moments::TableAt;
use model::slips::Use;

// A use with one point is a delivery, any other a loan.
pub(crate) fn is_delivery(what: Use) -> bool
    ensures { result ≡ delivery what }
{
    what.first == what.last
}

// What a use is worth.
#[derive(Clone, Copy)]
pub(crate) struct Worth {
    pub(crate) kilos: i32,
    ghost small: { Small kilos },
}

impl Worth {
    // While it is idle.
    pub(crate) const IDLE: Worth = Worth { kilos: 0 };

    // While it is active.
    fn active(what: Use) -> Worth
        requires { Light what }
        ensures { result.kilos ≡ worthOf what }
    {
        Worth {
            kilos: if is_delivery(what) {
                what.kilos
            } else {
                -what.kilos
            },
        }
    }
}

// Which options a use has left: active for its worth, or idle for nothing.
#[derive(Clone, Copy)]
pub(crate) enum Options {
    Both(Worth),
    Active(Worth),
    Idle,
    Neither,
}

impl Options {
    ghost use Rattle.bunker.specs.Choices.{high_of, low_of, both_of};

    // What the use is worth while it is active, where both options are left.
    pub(crate) fn undecided(self) -> Option<Worth>
        ensures { result ≡ both_of self }
    {
        match self {
            Options::Both(worth) => Some(worth),
            _ => None,
        }
    }

    // The largest and the smallest worth among the options, or 0.
    pub(crate) fn levels(self) -> Levels
        ensures highest { result.highest ≡ high_of self }
        ensures lowest { result.lowest ≡ low_of self }
    {
        let (highest, lowest) = match self {
            Options::Both(worth) => (worth.kilos.max(0), worth.kilos.min(0)),
            Options::Active(worth) => (worth.kilos, worth.kilos),
            Options::Idle | Options::Neither => (0, 0),
        };
        Levels { highest, lowest }
    }
}

impl TableAt<'_> {
    ghost use Rattle.bunker.specs.Choices.{Leaves};

    // What the table leaves open to the use at the moment.
    pub(crate) fn options(self, what: Use) -> Options
        requires { Light what }
        ensures { Leaves result (can_be_active (table_view self.entry.table.now) self.entry.at what) (can_be_idle (table_view self.entry.table.now) self.entry.at what) (worthOf what) }
    {
        let delivery = is_delivery(what);
        let active = !self.sure_after(what.first) && (delivery || !self.sure_by(what.last));
        let idle = !(self.sure_by(what.first) && (delivery || self.sure_after(what.last)));
        match (active, idle) {
            (true, true) => Options::Both(Worth::active(what)),
            (true, false) => Options::Active(Worth::active(what)),
            (false, true) => Options::Idle,
            (false, false) => Options::Neither,
        }
    }
}
