//! What no clause says: that there is memory for elements, and what the faults of a text are called.
use crate::{Byte, Bytes, Mark, Marks, Reading, SpellingFault, copy_elements, read_elements};

// A file's bytes give their elements, behind those that a list holds already.
#[test]
fn copies_the_elements_of_a_file(rt: HostRuntime) {
    let file = [0x10, 0x29, 0x41];
    let mut bytes = Vec::new(rt.alloc());
    for _ in 0..2 {
        let copied = copy_elements(&Bytes::new(&file), &mut bytes);
        assert!(rt; copied.is_ok());
    }
    let want = [0x10, 0x29, 0x41, 0x10, 0x29, 0x41].map(Byte::from);
    assert_eq!(rt; bytes.as_slice(), want.as_slice());
    let marks = Marks::new(Bytes::new(&file));
    assert_eq!(rt; marks.len(), 3);
    assert_eq!(rt; marks.at(2), Some(Mark::Unread));
    assert_eq!(rt; marks.at(3), None);
}

// A text gives its elements, and a text at fault leaves those that stood before.
#[test]
fn reads_the_elements_of_a_text(rt: HostRuntime) {
    let mut bytes: Vec<Byte> = Vec::new(rt.alloc());
    assert_eq!(rt; read_elements(b"4142", &mut bytes), Ok(()));
    assert_eq!(rt;
        read_elements(b"434x", &mut bytes),
        Err(SpellingFault::Unnamed(2))
    );
    assert_eq!(rt; read_elements(b"434", &mut bytes), Err(SpellingFault::Odd));
    assert_eq!(rt; read_elements(b"43", &mut bytes), Ok(()));
    assert_eq!(rt;
        bytes.as_slice(),
        [0x41, 0x42, 0x43].map(Byte::from).as_slice()
    );
}
