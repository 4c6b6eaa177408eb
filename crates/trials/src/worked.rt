//! The numbers of the published worked example, through a catalogue.
use crate::made::signature;
use catalogue::{Catalogue, Cause, Fault};
use kinds::Byte;
use std::process::Abort;
use std::test::Fail;

// The published example of two fragments.
const TEXT: &[u8] = b"A1A2A3[A4:A5]??B1B2B3(B4|B5)*{5}01??C1C2C3{4-7}D1????F1(F2|F3)F4F5";

// What is asked of a catalogue: a fragment, an index, and its four numbers.
type Shown = (usize, u8, (u32, u32, usize, u8));

// Asks for the numbers of the example's fragments, looked for ten elements from an end.
fn shows(rt: &(impl AllocGlobal + Abort), letter: u8, want: &[Shown]) -> Result<(), Fail> {
    let alloc = rt.alloc();
    let mut catalogue = Catalogue::<Byte>::new(alloc)?;
    let record = signature(alloc, 9, letter, 10, TEXT)?;
    assert_eq!(rt; catalogue.enter(record.as_slice()), Ok(9));
    for (fragment, index, numbers) in want {
        assert_eq!(rt; catalogue.show(9, 1, *fragment, *index), Ok(*numbers));
    }
    let missing = Err(Fault::outside(Cause::Missing, 9));
    for (sequence, fragment) in [(0, 1), (2, 1), (1, 0), (1, 3)] {
        assert_eq!(rt; catalogue.show(9, sequence, fragment, 0), missing);
    }
    let missing = Err(Fault::outside(Cause::Missing, 8));
    assert_eq!(rt; catalogue.show(8, 1, 1, 0), missing);
    Ok(())
}

// From the front: the anchor B1 B2 B3 stands behind A1 A2 A3, a range and one element more.
#[test]
fn shows_the_example_from_the_front(rt: HostRuntime) -> Result<(), Fail> {
    shows(
        &rt,
        b'B',
        &[
            (1, 0xB1, (10, 5, 3, 3)),
            (1, 0xB2, (10, 5, 3, 2)),
            (1, 0xB3, (10, 5, 3, 1)),
            (1, 0xA1, (10, 5, 3, 4)),
            (2, 0xC1, (5, 2, 3, 3)),
            (2, 0xC3, (5, 2, 3, 1)),
            (2, 0x00, (5, 2, 3, 4)),
        ],
    )
}

// From the back: fragments are numbered from the back, and everything is counted from there.
#[test]
fn shows_the_example_from_the_back(rt: HostRuntime) -> Result<(), Fail> {
    shows(
        &rt,
        b'E',
        &[
            (1, 0xC1, (10, 11, 3, 1)),
            (1, 0xC2, (10, 11, 3, 2)),
            (1, 0xC3, (10, 11, 3, 3)),
            (1, 0xF4, (10, 11, 3, 4)),
            (2, 0xB1, (5, 1, 3, 1)),
            (2, 0xB3, (5, 1, 3, 3)),
            (2, 0xA1, (5, 1, 3, 4)),
        ],
    )
}
