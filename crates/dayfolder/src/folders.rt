// The two files of a folder.
ghost use Rattle.std.specs.Prelude.{◌≡◌, ◌+◌, ◌≤◌, take, vec_len, IfSome, Some, Ok, Err, MatchResult};
ghost use Rattle.std.specs.Option.{ForSome};

use dayfile::faults::{DayFile, Fault};
use dayfile::files::{DayFiles, MOST_BYTES, check_files};
use std::alloc::Global;
use std::fs;
use std::io::Read;
use std::path::Path;
use std::rt::Files;

// The most bytes of a file that are read: one more than it may have.
const MOST_READ: usize = MOST_BYTES + 1;

// What was read of the two files of a folder, each None where it cannot be read.
#[derive(Drop)]
pub struct DayFolder {
    pub bridge: Option<Vec<u8>>,
    pub hall: Option<Vec<u8>>,
    // each has at most one byte more than a file may have
    ghost short_bridge: { ForSome bridge (λ bytes. vec_len bytes ≤ 65537) },
    ghost short_hall: { ForSome hall (λ bytes. vec_len bytes ≤ 65537) },
}

// The bytes of a reader up to the most that are read of a file, or None where it fails or there is no memory for them.
pub fn read_capped<R: Read + Drop>(heap: Global, reader: R) -> Option<Vec<u8>>
    ensures short { IfSome result (λ bytes. vec_len bytes ≤ MOST_BYTES + 1) }
    ensures bytes { IfSome result (λ bytes. IfSome (R.remaining reader) (λ xs. bytes.items ≡ take (MOST_BYTES + 1) xs)) }
{
    let mut bytes = Vec::new(heap);
    // `as`, since `u64::from` takes no usize; every usize fits
    reader.take(MOST_READ as u64).read_to_end(&mut bytes).ok()?;
    // This cuts nothing off, since `take` let no more through; of a reader whose bytes are not known no clause of `take` says that.
    bytes.truncate(MOST_READ);
    Some(bytes)
}

// What was read of a file. Which bytes a file holds is not known here.
fn read_file<R: Files>(rt: &R, heap: Global, folder: &str, file: DayFile) -> Option<Vec<u8>>
    ensures { IfSome result (λ bytes. vec_len bytes ≤ MOST_BYTES + 1) }
{
    let path = Path::new(folder).join(heap, file.name()).ok()?;
    let file = fs::open(rt, path.as_path()).ok()?;
    read_capped(heap, file)
}

impl DayFolder {
    ghost use Rattle.dayfolder.specs.Folders.{bridge_of, hall_of, readable};

    // Reads both files of a folder.
    pub fn read<R: Files + AllocGlobal>(rt: &R, folder: &str) -> DayFolder
        ensures bridge { IfSome result.bridge (λ bytes. vec_len bytes ≤ MOST_BYTES + 1) }
        ensures hall { IfSome result.hall (λ bytes. vec_len bytes ≤ MOST_BYTES + 1) }
    {
        DayFolder {
            bridge: read_file(rt, rt.alloc(), folder, DayFile::Bridge),
            hall: read_file(rt, rt.alloc(), folder, DayFile::Hall),
        }
    }

    // Both files, or the fault where one of them cannot be read.
    pub fn files(&self) -> Result<DayFiles<'_>, Fault>
        ensures { MatchResult result (λ files. (readable self.now ≡ Ok tt) × (bridge_of self.now ≡ Some files.bridge.now) × (hall_of self.now ≡ Some files.hall.now)) (λ fault. readable self.now ≡ Err fault) }
    {
        check_files(self.bridge.as_deref(), self.hall.as_deref())
    }
}
