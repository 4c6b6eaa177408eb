//! The example of the README: compiles a pattern text, and searches for it.
#![tactic(auto)]

use anyhow::Result;
use engine::{PatternText, Reference, Sequence};
use kinds::{Byte, Bytes};

fn main(rt: HostRuntime) -> Result<()> {
    let file = b"%PDF-1.7";
    let text = PatternText::try_from("25504446".as_bytes())?;
    let front = Reference::Front { least: 0, most: 8 };
    let sequence = Sequence::<Byte>::compile(1, front, text)?;
    if sequence.hits(&Bytes::new(file)) {
        rt.println("hit")?;
    }
    Ok(())
}

#[cfg(test)]
mod tests {
    use engine::{Fragment, PatternText, Reference, Sequence, Table};
    use kinds::{Byte, Bytes};
    use std::test::Fail;

    // There is memory for a table, and a sequence in it hits what it hits on its own.
    #[test]
    fn searches_from_a_table(rt: HostRuntime) -> Result<(), Fail> {
        let mut table = Table::new(rt.alloc())?;
        let text = PatternText::try_from("25*50{1-2}46".as_bytes())?;
        let sequence = Sequence::<Byte>::compile(1, Reference::Anywhere, text)?;
        let placed = sequence.into_table(&mut table).ok().ok_or("no room")?;
        assert_eq!(rt; table.free_count(), 94);
        assert!(rt; placed.hits(&table, &Bytes::new(b"%..P.F")));
        assert!(rt; !placed.hits(&table, &Bytes::new(b"%..P...F")));
        // A fragment is copied out of its slot into another one.
        let fragment = *table.get(0).ok_or("no fragment")?;
        table.set(2, fragment);
        assert_eq!(rt; table.free_count(), 93);
        table.clear(2);
        placed.clear(&mut table);
        assert_eq!(rt; table.free_count(), 96);
        Ok(())
    }

    // The default fragment has no anchor, and its break, its lead and its last shift are 0.
    #[test]
    fn default_fragment(rt: HostRuntime) -> Result<(), Fail> {
        let fragment = Fragment::default();
        assert_eq!(rt; fragment.anchor_len(), 0);
        assert_eq!(rt; fragment.break_before(), 0);
        assert_eq!(rt; fragment.lead(), 0);
        assert_eq!(rt; fragment.shift(255), 0);
        Ok(())
    }
}
