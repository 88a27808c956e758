// What is printed of a fault.
use dayfile::faults::Fault;

// The printed values: file, line, refusal.
pub(crate) fn values(fault: Fault) -> (u8, usize, u8) {
    (
        fault.file.number(),
        fault.line,
        fault.refusal.number().unwrap_or(0),
    )
}
