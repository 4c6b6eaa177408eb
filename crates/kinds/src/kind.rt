//! The interface of an element kind.
ghost use Rattle.std.specs.Prelude.{◌≡◌};
ghost use Rattle.kinds.specs.Alphabet.{Alphabet, Lawful};

/// A kind of element, which readings hold and patterns are written in. Its rules are in
/// docs/KINDS_AND_READINGS.md; bytes and axle marks are two kinds.
pub trait Kind: Copy {
    ghost alphabet: { Alphabet Self };

    /// The element's code, a number of 16 bits: two elements are equal exactly when their codes
    /// are.
    fn code(self) -> u16
        ensures { result ≡ alphabet.code self };

    /// The element that a pair of characters names, if any. Both are letters or digits of ASCII.
    fn named(first: u8, second: u8) -> Option<Self>
        ensures { result ≡ alphabet.named first second };

    /// The kind of the records that hold signatures over such elements, as their files number it.
    // A number and no enum: any type may be a kind, with the numbers that its files have.
    fn signature_record() -> u16
        ensures { result ≡ alphabet.signature_record };

    /// The kind of the records that hold formats over such elements. It is another number.
    fn format_record() -> u16
        ensures { result ≡ alphabet.format_record };

    ghost lawful: { Lawful alphabet };
}
