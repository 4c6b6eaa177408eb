//! Where a sequence is looked for.

/// Where a sequence is looked for: from the front of a reading, from its back, or anywhere.
///
/// Front and back bound the number of elements that stand before a placement, or behind it. Where
/// the least offset is above the greatest, nothing hits. The rule stands in docs/PATTERNS.md,
/// "Placements".
#[derive(Clone, Copy, PartialEq, Eq, Debug)]
pub enum Reference {
    /// As many elements stand before a placement.
    Front {
        /// At least so many elements.
        least: u16,
        /// At most so many elements.
        most: u16,
    },
    /// As many elements stand behind a placement.
    Back {
        /// At least so many elements.
        least: u16,
        /// At most so many elements.
        most: u16,
    },
    /// A placement may stand anywhere.
    Anywhere,
}

impl Reference {
    ghost use Rattle.std.specs.Prelude.{◌≡◌};
    ghost use Rattle.patterns.specs.Patterns.{least_offset};

    /// The least offset, in elements; 0 where the reference has none.
    pub fn least_offset(self) -> u16
        ensures { result ≡ least_offset self }
    {
        match self {
            Reference::Front { least, .. } | Reference::Back { least, .. } => least,
            Reference::Anywhere => 0,
        }
    }
}
