//! Theorems about the definitions, each the contract of a function, so that the check asks for its
//! proof.
ghost use Rattle.std.specs.Prelude.{◌≡◌, true};
ghost use Rattle.patterns.specs.Patterns.{HitsExactly, MirroredAlike};
ghost use Rattle.patterns.specs.Reader.{ReadsExactly, RefusesAtLongest};
ghost use Rattle.patterns.specs.Search.{EndsLeast, FoundExactly, FoundFromBack};

use kinds::Kind;

/// A sequence hits a reading exactly when a placement exists.
pub fn hits_exactly() -> bool
    ensures answer { result ≡ true }
    ensures theorem { HitsExactly }
{
    true
}

/// The mirrored sequence hits the reversed reading exactly when the sequence hits the reading.
pub fn mirrored_alike() -> bool
    ensures answer { result ≡ true }
    ensures theorem { MirroredAlike }
{
    true
}

/// The reader reads exactly the texts of the grammar, each in one way.
pub fn reads_exactly<K: Kind>() -> bool
    ensures answer { result ≡ true }
    ensures theorem { ReadsExactly K.alphabet }
{
    true
}

/// It refuses every other text at the length of its longest prefix that begins some text.
pub fn refuses_at_longest<K: Kind>() -> bool
    ensures answer { result ≡ true }
    ensures theorem { RefusesAtLongest K.alphabet }
{
    true
}

/// Within the limits, searching fragment by fragment decides as the rule does.
pub fn found_exactly() -> bool
    ensures answer { result ≡ true }
    ensures theorem { FoundExactly }
{
    true
}

/// Within the limits, searching the mirrored fragments in the reversed reading decides as the rule
/// does from the back.
pub fn found_from_back() -> bool
    ensures answer { result ≡ true }
    ensures theorem { FoundFromBack }
{
    true
}

/// Within the limits, the search by fragments ends at the least end of a placement of all items.
pub fn ends_least() -> bool
    ensures answer { result ≡ true }
    ensures theorem { EndsLeast }
{
    true
}
