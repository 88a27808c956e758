// Numbers of a day file.
ghost use Rattle.std.specs.Prelude.{◌≡◌, ◌≤◌, IfSome};
ghost use Rattle.dayline.specs.Numbers.{digits_from, positive, in_range, number, ReadsWritten};

// The greatest number, either way.
const MOST: u32 = 100_000_000;

// The number that digits write, at most MOST.
fn read_digits(bytes: &[u8]) -> Option<u32>
    ensures value { result ≡ in_range (digits_from 0 bytes.now) }
    ensures bound { IfSome result (λ n. n ≤ 100000000) }
{
    let mut n: u32 = 0;
    for b in bytes {
        let digit = *b;
        if digit < b'0' || digit > b'9' {
            return None;
        }
        n = n * 10 + u32::from(digit - b'0');
        if n > MOST {
            return None;
        }
    }
    Some(n)
}

// The number of digits of which the first is not 0.
fn read_positive(bytes: &[u8]) -> Option<u32>
    ensures value { result ≡ in_range (positive bytes.now) }
    ensures bound { IfSome result (λ n. n ≤ 100000000) }
{
    if bytes.is_empty() || bytes[0] == b'0' {
        return None;
    }
    read_digits(bytes)
}

// The number that the bytes write, from -100,000,000 to 100,000,000; none where they write no such number.
pub(crate) fn read_number(bytes: &[u8]) -> Option<i32>
    ensures value { result ≡ number bytes.now }
    ensures written { ReadsWritten bytes.now result }
{
    if bytes.is_empty() {
        return None;
    }
    if bytes[0] == b'-' {
        let n = read_positive(&bytes[1..])?;
        return Some(-(n as i32));
    }
    if bytes[0] == b'0' && bytes.len() == 1 {
        return Some(0);
    }
    let n = read_positive(bytes)?;
    Some(n as i32)
}
