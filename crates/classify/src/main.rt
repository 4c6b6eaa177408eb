//! Enters records and reports on readings: records on standard input, lines on standard output.
#![tactic(auto)]

use command::{Asked, Failure, arguments, end};
use std::process::ExitCode;

mod answers;
mod input;
mod stream;

use stream::answer_all;

const USAGE: &str = "\
usage: classify [--help]

Reads records from standard input and answers each with lines on standard output.

A record is a two-byte length of its body, a two-byte kind and the body, the low byte first. Kinds
1, 3 and 5 are signatures, formats and readings of bytes, 2, 4 and 6 those of axle marks. The kind of
the first record, odd or even, decides which of the two the catalogue is of.

  signature ID entered          a signature now stands
  format ID entered             a format now stands
  refused NUMBER SEQUENCE PLACE the record is refused, and nothing changes
  STATUS COUNT                  the report on a reading, and then a line for each hit:
  ID STATUS [mismatch]

A body of more than 4,096 bytes is refused, and ends the program.";

// Does what the arguments ask for.
fn run(rt: &HostRuntime) -> Result<(), Failure> {
    match arguments(rt)? {
        Asked::Work => answer_all(rt),
        Asked::Usage => rt.println(USAGE).map_err(Failure::Output),
    }
}

fn main(rt: HostRuntime) -> ExitCode {
    end(&rt, "classify", run(&rt))
}
