// The weighbridge itself. What is done with it stands in the other modules.
use model::slips::Use;
use register::registers::Register;

mod making;

// The most uses that stand in a weighbridge.
pub const MOST_USES: usize = 16;

// A bridge that one vehicle crosses at a time, with the crossings that stand in it.
#[derive(Drop)]
pub struct Weighbridge {
    pub(crate) uses: Register<Use, MOST_USES>,
}
