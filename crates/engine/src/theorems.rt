//! Theorems about the definitions, each the contract of a function, so that the check asks for its
//! proof.
ghost use Rattle.std.specs.Prelude.{◌≡◌, true};
ghost use Rattle.engine.specs.Tables.{StandsOn};

/// A sequence that stands in a table goes on to stand in it as long as its slots are left alone. Its
/// slots are distinct and hold fragments, and where slots that do are freed, as many more are free.
pub fn stands_on() -> bool
    ensures theorem { StandsOn }
    ensures answer { result ≡ true }
{
    true
}
