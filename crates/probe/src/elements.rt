//! Elements as a line gives them.
use crate::complaint::Complaint;
use kinds::{Kind, read_elements};
use std::alloc::Global;

/// Elements of pairs that are written together, `-` for none.
pub(crate) fn elements_of<K: Kind>(alloc: Global, word: &str) -> Result<Vec<K>, Complaint> {
    let pairs = if word == "-" { "" } else { word };
    let mut elements = Vec::new(alloc);
    read_elements(pairs.as_bytes(), &mut elements)?;
    Ok(elements)
}
