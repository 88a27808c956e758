// A label from its text, and the text of a label.
ghost use Rattle.std.specs.Prelude.{◌≡◌, true, false, MatchResult};
ghost use Rattle.std.specs.List.{list_all};
ghost use Rattle.model.specs.Bytes.{label_byte};
ghost use Rattle.model.specs.Labels.{is_label, text_of};
ghost use Rattle.model.specs.declared.refusals.Refusal.TheVariants.{BadLabel};

use super::{Label, MOST_BYTES};
use crate::refusals::Refusal;

fn is_label_byte(b: u8) -> bool
    ensures { result ≡ label_byte b }
{
    b.is_ascii_lowercase() || b.is_ascii_digit()
}

fn has_label_bytes(text: &[u8]) -> bool
    ensures { result ≡ list_all label_byte text.now }
{
    text.iter().all(|b| is_label_byte(*b))
}

impl Label {
    // The label of that text, or a refusal where the text is none.
    pub fn new(text: &[u8]) -> Result<Label, Refusal>
        ensures { MatchResult result (λ l. (is_label text.now ≡ true) × (text_of l ≡ text.now)) (λ e. (e ≡ BadLabel) × (is_label text.now ≡ false)) }
    {
        let len = text.len();
        if len == 0 || len > MOST_BYTES || !has_label_bytes(text) {
            return Err(Refusal::BadLabel);
        }
        let mut bytes = [0u8; MOST_BYTES];
        bytes[..len].copy_from_slice(text);
        Ok(Label { bytes, len })
    }

    pub fn as_bytes(&self) -> &[u8]
        ensures { result.now ≡ text_of self.now }
    {
        &self.bytes[0..self.len]
    }
}
