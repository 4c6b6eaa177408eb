//! What a format says of signatures, other formats and labels.
ghost use Rattle.std.specs.Prelude.{◌≡◌};
ghost use Rattle.records.specs.Report.{among_ids, equals_label, folded, labelled, warned};
ghost use Rattle.records.specs.Taken.{format_in, label_in};

use crate::format::{Format, Label};

// A character of a label as it is compared: A-Z is read as a-z.
fn fold(c: u8) -> u8
    ensures { result ≡ folded c }
{
    if c.is_ascii_uppercase() { c + 32 } else { c }
}

impl Label {
    /// Whether a given label equals this one, A-Z read as a-z in the given one.
    pub fn equals(&self, given: &[u8]) -> bool
        ensures { result ≡ equals_label given.now (label_in self.now) }
    {
        let label = self.characters.as_slice();
        if given.len() != label.len() {
            return false;
        }
        given.iter().zip(label).all(|(g, l)| fold(*g) == *l)
    }
}

impl Format {
    /// Whether the format names a signature, by its id.
    pub fn names(&self, signature: u16) -> bool
        ensures { result ≡ among_ids signature self.now.signatures.items }
    {
        self.signatures.iter().any(|id| *id == signature)
    }

    /// Whether the format outranks another, by its id.
    pub fn outranks(&self, format: u16) -> bool
        ensures { result ≡ among_ids format self.now.outranked.items }
    {
        self.outranked.iter().any(|id| *id == format)
    }

    /// Whether one of its labels equals the given one, A-Z read as a-z.
    pub fn has_label(&self, given: &[u8]) -> bool
        ensures { result ≡ labelled given.now (format_in self.now) }
    {
        self.labels.iter().any(|label| label.equals(given))
    }

    /// Whether it warns under a label: it has labels, and none equals that one.
    pub fn warns(&self, given: &[u8]) -> bool
        ensures { result ≡ warned given.now (format_in self.now) }
    {
        !self.labels.is_empty() && !self.has_label(given)
    }
}
