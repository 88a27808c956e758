// Putting a text together. What would come behind the 1,536th byte is left out.
ghost use Rattle.std.specs.Prelude.{◌≡◌, ◌≤◌, [], ◌∷◌, ◌++◌, length, decimal};
ghost use Rattle.std.specs.Fmt.{signed_decimal};
ghost use Rattle.texts.specs.Texts.{cut};

use super::Text;
use arrayvec::ArrayVec;
use itoa::{Buffer, Integer};

impl Text {
    // A text without bytes.
    pub fn new() -> Text
        ensures { result ≡ [] }
    {
        Text {
            bytes: ArrayVec::new(),
        }
    }

    pub fn as_bytes(&self) -> &[u8]
        ensures value { result.now ≡ self.now }
        ensures short { length result.now ≤ 1536 }
    {
        self.bytes.as_slice()
    }

    // Appends a byte.
    pub fn push(&mut self, byte: u8)
        ensures { self.new ≡ cut (self.old ++ byte ∷ []) }
    {
        let _ = self.bytes.try_push(byte);
    }

    // Appends bytes.
    pub fn push_bytes(&mut self, bytes: &[u8])
        ensures { self.new ≡ cut (self.old ++ bytes.now) }
    {
        // the vector takes a slice whole or not at all
        let room = self.bytes.remaining_capacity();
        let fitting = &bytes[..room.min(bytes.len())];
        let _ = self.bytes.try_extend_from_slice(fitting);
    }

    // Appends a number in decimal.
    pub fn push_unsigned(&mut self, number: u32)
        ensures { self.new ≡ cut (self.old ++ decimal number) }
    {
        self.push_number::<u32>(number);
    }

    // Appends a number in decimal, a minus before it where it is below 0.
    pub fn push_signed(&mut self, number: i32)
        ensures { self.new ≡ cut (self.old ++ signed_decimal number) }
    {
        self.push_number::<i32>(number);
    }

    // Appends a number as its type writes it in decimal.
    fn push_number<N: Integer>(&mut self, number: N)
        ensures { self.new ≡ cut (self.old ++ N.text number) }
    {
        let mut digits = Buffer::new();
        self.push_bytes(digits.format(number).as_bytes());
    }
}
