// What no clause says: that reading succeeds, and what is printed.
use crate::arguments::Request;
use crate::folders::read_capped;
use crate::printing::FaultTable;
use dayfile::faults::{DayFile, Fault};
use model::refusals::Refusal;
use std::io;
use std::io::Read;
use std::test::Fail;

// A reader that gives one byte, and then fails.
#[derive(Drop)]
struct Failing {
    begun: bool,
}

impl Read for Failing {
    fn read(&mut self, buf: &mut [u8]) -> io::Result<usize> {
        if self.begun || buf.is_empty() {
            return Err(io::Error::from(io::ErrorKind::Other));
        }
        self.begun = true;
        buf[0] = b'\n';
        Ok(1)
    }
}

#[test]
fn one_byte_more_than_allowed_is_read(rt: HostRuntime) -> Result<(), Fail> {
    let long = vec![in rt.alloc(); b'\n'; 65_540]?;
    for (len, read) in [(0, 0), (65_536, 65_536), (65_537, 65_537), (65_540, 65_537)] {
        let reader = long.as_slice().get(..len).ok_or("too long")?;
        let bytes = read_capped(rt.alloc(), reader).ok_or("not read")?;
        assert_eq!(rt; bytes.len(), read);
    }
    assert!(rt; read_capped(rt.alloc(), Failing { begun: false }).is_none());
    Ok(())
}

#[test]
fn words_choose_a_folder(rt: HostRuntime) -> Result<(), Fail> {
    let heap = rt.alloc();
    let mut words = Vec::new(heap);
    assert!(rt; matches!(Request::of(words.as_slice()), Ok(Request::Day("."))));
    words.push(String::from_str(heap, "days/one")?)?;
    assert!(rt; matches!(Request::of(words.as_slice()), Ok(Request::Day("days/one"))));
    words.push(String::from_str(heap, "--help")?)?;
    assert!(rt; Request::of(words.as_slice()).is_err());
    assert!(rt; matches!(Request::of(&words.as_slice()[1..]), Ok(Request::Help)));
    Ok(())
}

#[test]
fn fault_is_a_table(rt: HostRuntime) -> Result<(), Fail> {
    let fault = Fault {
        file: DayFile::Hall,
        line: 12,
        refusal: Refusal::BadNumber,
    };
    let table = FaultTable(fault).to_string(rt.alloc())?;
    assert_eq!(rt; table.as_str(), "file line refusal\n2 12 20");
    Ok(())
}
