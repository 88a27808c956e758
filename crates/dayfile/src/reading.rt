// Reading a day: the calls that its lines stand for, and the first fault.
use crate::faults::{Fault, Place};
use daytables::rows::FloorLine;
use runs::calls::Call;

mod days;
mod finding;
mod lines;

pub use self::days::{ReadDay, read_day};

// What has been read of a day.
#[derive(Drop)]
pub struct Reading<'a> {
    // the settings of the bunkers, at lines 2 and 3 of hall.day
    pub bunkers: Vec<FloorLine>,
    // the labels of the points, by their numbers
    labels: Vec<&'a [u8]>,
    // the calls that the lines stand for, in the order of reading, and where each of these lines stands: two lists, since a sheet is
    // given the calls alone
    pub calls: Vec<Call<'a>>,
    pub places: Vec<Place>,
    // the fault at which reading ended
    pub fault: Option<Fault>,
}
