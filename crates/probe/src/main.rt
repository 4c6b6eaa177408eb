//! For people who set up patterns and strips: one line of text in, one line out.
#![tactic(auto)]

use command::{Asked, Failure, arguments, end};
use std::alloc::{AllocError, Global};
use std::io::{BufRead, BufReader};
use std::process::ExitCode;

mod answers;
mod complaint;
mod elements;
mod pattern;

use answers::answer;
use complaint::Complaint;

const USAGE: &str = "\
usage: probe [--help]

Answers each line of standard input with one line. Other arguments are passed over.

  codes KIND ELEMENTS                               codes of the elements
  backward KIND ELEMENTS                            codes from the last element to the first
  marks BYTES                                       axle marks over bytes
  read KIND TEXT                                    number of a pattern's fragments
  show KIND REFERENCE LO HI TEXT FRAGMENT INDEX     break, lead, anchor length and shift
  hit KIND REFERENCE LO HI TEXT ELEMENTS            hit or miss

KIND is byte or mark. ELEMENTS and BYTES are pairs run together, - for none. REFERENCE is B
(from the front), E (from the back) or V (anywhere, with the offsets 0 0).";

// A line without its end, as text.
fn text_of(line: &[u8]) -> Result<&str, Complaint> {
    let line = match line {
        [text @ .., b'\r', b'\n'] => text,
        [text @ .., b'\n'] => text,
        _ => line,
    };
    std::str::from_utf8(line).map_err(|_| Complaint::NotText)
}

// The answer to a line that was read, with its end.
fn respond(alloc: Global, line: &[u8]) -> Result<String, Complaint> {
    answer(alloc, text_of(line)?)
}

// What is printed for a line: the answer, or what is wrong with the line.
fn reply(alloc: Global, line: &[u8]) -> Result<String, AllocError> {
    match respond(alloc, line) {
        Ok(text) => Ok(text),
        Err(Complaint::Memory(e)) => Err(e),
        Err(Complaint::Refused(fault)) => fault.line().to_string(alloc),
        Err(complaint) => format!(in alloc; "error: {complaint}"),
    }
}

// Answers each line of the input.
fn answer_lines(rt: &HostRuntime) -> Result<(), Failure> {
    let alloc = rt.alloc();
    let mut input = BufReader::new(alloc, rt.stdin()).map_err(Failure::Input)?;
    let mut line = Vec::new(alloc);
    // One buffer for all lines, which `lines` would make anew for each.
    for _ in 0..u64::MAX {
        line.clear();
        let read = input.read_until(b'\n', &mut line);
        if read.map_err(Failure::Input)? == 0 {
            break;
        }
        let reply = reply(alloc, line.as_slice())?;
        rt.println(reply.as_str()).map_err(Failure::Output)?;
    }
    Ok(())
}

// Does what the arguments ask for: any but `--help` alone are passed over.
fn run(rt: &HostRuntime) -> Result<(), Failure> {
    match arguments(rt) {
        Ok(Asked::Usage) => rt.println(USAGE).map_err(Failure::Output),
        Ok(Asked::Work) | Err(_) => answer_lines(rt),
    }
}

fn main(rt: HostRuntime) -> ExitCode {
    end(&rt, "probe", run(&rt))
}
