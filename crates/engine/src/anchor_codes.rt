//! The codes of an anchor.
ghost use Rattle.std.specs.Prelude.{◌≡◌, ◌<◌, ◌≤◌, ◌++◌, [], ◌∷◌, length};

use crate::pattern::MOST_CODES;
use std::marker::Model;

/// The codes of an anchor's literals, in order, at most 100 of them.
// No `ArrayVec`, which is not `Copy`, as a compiled fragment is.
#[derive(Clone, Copy)]
pub(crate) struct AnchorCodes {
    cells: [u16; MOST_CODES],
    len: u8,
}

// The places behind the codes hold 0, so the codes say all.
impl Model for AnchorCodes {
    ghost use Rattle.std.specs.Prelude.{◌≡◌, ◌-◌, ◌≤◌, ◌++◌, length, take, drop, replicate};
    ghost use Rattle.std.proofs.Common.{sym, ap, ◌∙◌, arith, take-append-drop, length-take-le};
    ghost use Rattle.engine.specs.AnchorCodes.{Cells, spare};

    ghost Value = { Cells };

    ghost view = { λ c. record { items = take c.len c.cells } };

    ghost invariant = { λ c. (c.len ≤ 100) × (length c.cells ≡ 100)
        × (drop c.len c.cells ≡ replicate (100 - c.len) 0) };

    ghost inverse = { λ c. record { cells = c.items ++ spare c; len = length c.items } };

    ghost inverse_ok = { λ c h i.
        let codes = take c.len c.cells in
        let long = length-take-le c.len c.cells (omega (arith, h.0, h.1)) in
        let behind = ap (λ n. replicate (100 - n) 0) long ∙ sym h.2 in
        record {
          cells = (ap (λ zeros. codes ++ zeros) behind ∙ take-append-drop c.len c.cells) i;
          len = long i;
        } };
}

impl AnchorCodes {
    /// No codes.
    pub(crate) fn new() -> AnchorCodes
        ensures { result.items ≡ [] }
    {
        AnchorCodes {
            cells: [0; MOST_CODES],
            len: 0,
        }
    }

    /// Puts one code behind the others.
    pub(crate) fn push(&mut self, code: u16)
        requires { length self.old.items < MOST_CODES }
        ensures items { self.new.items ≡ self.old.items ++ code ∷ [] }
    {
        self.cells[usize::from(self.len)] = code;
        self.len += 1;
    }

    /// The codes.
    pub(crate) fn as_slice(&self) -> &[u16]
        ensures value { result.now ≡ self.now.items }
    {
        &self.cells[..usize::from(self.len)]
    }

    /// How many codes there are.
    pub(crate) fn len(&self) -> usize
        ensures value { result ≡ length self.now.items }
        ensures fits { result ≤ MOST_CODES }
    {
        usize::from(self.len)
    }
}

impl Default for AnchorCodes {
    ghost is_default = { λ c. c.items ≡ [] };

    fn default() -> AnchorCodes {
        AnchorCodes::new()
    }
}
