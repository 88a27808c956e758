// Whether the files of a day are there, short enough and ended.
ghost use Rattle.std.specs.Prelude.{◌≡◌, Some, Ok, Err, MatchResult};
ghost use Rattle.std.specs.Option.{option_map};
ghost use Rattle.dayfile.specs.Files.{readable, outcome, one_of};

use crate::faults::{DayFile, Fault};
use model::refusals::Refusal;

// The most bytes that a day file may have.
pub const MOST_BYTES: usize = 65_536;

// The bytes of the two files of a day.
#[derive(Clone, Copy)]
pub struct DayFiles<'a> {
    pub bridge: &'a [u8],
    pub hall: &'a [u8],
}

impl<'a> DayFiles<'a> {
    // The bytes of one of them.
    pub(crate) fn of(self, file: DayFile) -> &'a [u8]
        ensures { result.now ≡ one_of self.entry.bridge.now self.entry.hall.now file }
    {
        match file {
            DayFile::Bridge => self.bridge,
            DayFile::Hall => self.hall,
        }
    }
}

// The bytes of a file that can be read, or what keeps it from that. None stands for a file that is missing.
fn check_file<'a>(bytes: Option<&'a [u8]>) -> Result<&'a [u8], Refusal>
    ensures { MatchResult result (λ read. (readable (option_map (λ x. x.now) bytes.entry) ≡ Ok tt) × (option_map (λ x. x.now) bytes.entry ≡ Some read.now)) (λ why. readable (option_map (λ x. x.now) bytes.entry) ≡ Err why) }
{
    let bytes = bytes.ok_or(Refusal::FileMissing)?;
    if bytes.len() > MOST_BYTES {
        return Err(Refusal::FileTooLong);
    }
    if bytes.last() != Some(&b'\n') {
        return Err(Refusal::FileUnended);
    }
    Ok(bytes)
}

// Both files, or the fault where one of them cannot be read: hall.day is tested before bridge.day.
pub fn check_files<'a>(
    bridge: Option<&'a [u8]>,
    hall: Option<&'a [u8]>,
) -> Result<DayFiles<'a>, Fault>
    ensures { let given-bridge = option_map (λ x. x.now) bridge.entry in
        let given-hall = option_map (λ x. x.now) hall.entry in
        MatchResult result (λ files. (outcome given-bridge given-hall ≡ Ok tt) × (given-bridge ≡ Some files.bridge.now) × (given-hall ≡ Some files.hall.now)) (λ fault. outcome given-bridge given-hall ≡ Err fault) }
{
    let hall = check_file(hall).map_err(|refusal| DayFile::Hall.line(0).fault(refusal))?;
    let bridge = check_file(bridge).map_err(|refusal| DayFile::Bridge.line(0).fault(refusal))?;
    Ok(DayFiles { bridge, hall })
}
