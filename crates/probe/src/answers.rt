//! The commands, each from a line's words to its answer.
use crate::complaint::Complaint;
use crate::elements::elements_of;
use crate::pattern::{Words, hit, read, shown};
use kinds::{Backward, Byte, Held, Kind, Mark, Marks, Order, Reading, copy_elements};
use std::alloc::{AllocError, Global};
use std::fmt::Write;

// A command over elements of some kind, with its words.
#[derive(Clone, Copy)]
enum Command<'l> {
    Codes(Order, &'l str),
    Read(&'l str),
    Show(Words<'l>, &'l str, &'l str),
    Hit(Words<'l>, &'l str),
}

impl Command<'_> {
    // The answer over elements of a kind.
    fn answer<K: Kind>(self, alloc: Global) -> Result<String, Complaint> {
        match self {
            Command::Codes(order, elements) => codes::<K>(alloc, order, elements),
            Command::Read(text) => read::<K>(alloc, text),
            Command::Show(sequence, fragment, index) => {
                shown::<K>(alloc, sequence, fragment, index)
            }
            Command::Hit(sequence, elements) => hit::<K>(alloc, sequence, elements),
        }
    }
}

/// The answer to a line.
pub(crate) fn answer(alloc: Global, line: &str) -> Result<String, Complaint> {
    if line.is_empty() {
        return Err(Complaint::EmptyLine);
    }
    let words: Vec<&str> = line.split(' ').collect(alloc)?;
    if words.as_slice().contains(&"") {
        return Err(Complaint::EmptyWord);
    }
    let (kind, command) = match words.as_slice() {
        ["marks", bytes] => return marks(alloc, bytes),
        ["codes", kind, elements] => (kind, Command::Codes(Order::Forward, elements)),
        ["backward", kind, elements] => (kind, Command::Codes(Order::Backward, elements)),
        ["read", kind, text] => (kind, Command::Read(text)),
        ["show", kind, sequence @ .., fragment, index] => {
            let sequence = Words::try_from(sequence)?;
            (kind, Command::Show(sequence, fragment, index))
        }
        ["hit", kind, sequence @ .., elements] => {
            let sequence = Words::try_from(sequence)?;
            (kind, Command::Hit(sequence, elements))
        }
        ["codes" | "backward" | "marks" | "read" | "show" | "hit", ..] => {
            return Err(Complaint::NumberOfWords);
        }
        _ => return Err(Complaint::UnknownCommand),
    };
    of_kind(alloc, kind, command)
}

// A command's answer, over elements of the kind that a word names.
fn of_kind(alloc: Global, kind: &str, command: Command) -> Result<String, Complaint> {
    match kind {
        "byte" => command.answer::<Byte>(alloc),
        "mark" => command.answer::<Mark>(alloc),
        _ => Err(Complaint::UnknownKind),
    }
}

// The codes of elements, in an order.
fn codes<K: Kind>(alloc: Global, order: Order, word: &str) -> Result<String, Complaint> {
    let elements: Vec<K> = elements_of(alloc, word)?;
    let held = Held::new(elements.as_slice());
    let text = match order {
        Order::Forward => written_codes(alloc, &held)?,
        Order::Backward => written_codes(alloc, &Backward::new(held))?,
    };
    Ok(text)
}

// The codes of a reading, separated by spaces, `-` for none.
fn written_codes<R: Reading>(alloc: Global, reading: &R) -> Result<String, AllocError> {
    let mut elements = Vec::new(alloc);
    copy_elements(reading, &mut elements)?;
    // No `join`, which would hold a string for each code.
    let mut codes = String::new(alloc);
    for x in elements {
        if !codes.is_empty() {
            codes.push(' ')?;
        }
        write!(codes, "{}", x.code())?;
    }
    or_dash(codes)
}

// The pairs of the axle marks over bytes, run together, `-` for none.
fn marks(alloc: Global, word: &str) -> Result<String, Complaint> {
    let bytes: Vec<Byte> = elements_of(alloc, word)?;
    let mut marks = Vec::new(alloc);
    copy_elements(&Marks::new(Held::new(bytes.as_slice())), &mut marks)?;
    let mut pairs = String::new(alloc);
    // No `{mark}`, which takes half as long again.
    for mark in marks {
        let (letter, digit) = mark.pair();
        pairs.push(char::from(letter))?;
        pairs.push(char::from(digit))?;
    }
    Ok(or_dash(pairs)?)
}

// A text, `-` for an empty one.
fn or_dash(mut text: String) -> Result<String, AllocError> {
    if text.is_empty() {
        text.push('-')?;
    }
    Ok(text)
}
