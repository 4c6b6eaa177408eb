//! What no clause of a catalogue says: that there is memory for it, and what its calls answer on
//! worked examples and at their bounds.
#![tactic(auto)]

#[cfg(test)]
mod bounds;
#[cfg(test)]
mod made;
#[cfg(test)]
mod worked;
