//! Records, put together.
use std::alloc::{AllocError, Global};

/// The kinds of the records over bytes.
pub(crate) const SIGNATURE: u16 = 1;

pub(crate) const FORMAT: u16 = 3;

// Puts a number of two bytes behind others, the low byte first.
fn put_word(bytes: &mut Vec<u8>, n: u16) -> Result<(), AllocError> {
    bytes.extend_from_slice(&n.to_le_bytes())?;
    Ok(())
}

// Puts the length of a text and the text behind others.
fn put_text(bytes: &mut Vec<u8>, text: &[u8]) -> Result<(), AllocError> {
    bytes.push(u8::try_from(text.len()).unwrap_or(0))?;
    bytes.extend_from_slice(text)?;
    Ok(())
}

// Puts how many ids there are and the ids behind others.
fn put_ids(bytes: &mut Vec<u8>, ids: &[u16]) -> Result<(), AllocError> {
    bytes.push(u8::try_from(ids.len()).unwrap_or(0))?;
    for id in ids {
        put_word(bytes, *id)?;
    }
    Ok(())
}

// A record of a kind with a body.
fn record(alloc: Global, kind: u16, body: &[u8]) -> Result<Vec<u8>, AllocError> {
    let mut bytes = Vec::new(alloc);
    put_word(&mut bytes, u16::try_from(body.len()).unwrap_or(0))?;
    put_word(&mut bytes, kind)?;
    bytes.extend_from_slice(body)?;
    Ok(bytes)
}

/// The record of a specific signature with one sequence.
pub(crate) fn signature(
    alloc: Global,
    id: u16,
    letter: u8,
    offset: u16,
    text: &[u8],
) -> Result<Vec<u8>, AllocError> {
    let mut body = Vec::new(alloc);
    put_word(&mut body, id)?;
    body.extend_from_slice(&[1, 1, letter])?;
    put_word(&mut body, offset)?;
    put_word(&mut body, offset)?;
    put_text(&mut body, text)?;
    record(alloc, SIGNATURE, body.as_slice())
}

/// The record of a format without a name, with one label where one is given.
pub(crate) fn format(
    alloc: Global,
    id: u16,
    signatures: &[u16],
    outranked: &[u16],
    label: Option<&[u8]>,
) -> Result<Vec<u8>, AllocError> {
    let mut body = Vec::new(alloc);
    put_word(&mut body, id)?;
    put_text(&mut body, b"")?;
    put_ids(&mut body, signatures)?;
    put_ids(&mut body, outranked)?;
    match label {
        Some(label) => {
            body.push(1)?;
            put_text(&mut body, label)?;
        }
        None => body.push(0)?,
    }
    record(alloc, FORMAT, body.as_slice())
}
