//! Measures the search: how long a file's bytes are searched for a pattern text.
#![tactic(auto)]

use engine::{MOST_CHARACTERS, PatternText, Reference, Sequence, TooLong};
use kinds::{Backward, Byte, Bytes, Order};
use std::io::ErrorKind;
use std::process::ExitCode;
use std::{env, fs};

mod complaint;
mod identify;
mod measure;
mod request;

use complaint::Complaint;
use identify::measure_reports;
use measure::measured;
use request::{Asked, Question, Request};

const USAGE: &str = "\
usage: bench FILE TEXT [RUNS] [backward]
       bench --identify RECORDS FILE [RUNS]

Searches the bytes of FILE for the pattern TEXT, anywhere, and prints hit or miss, the least time of
RUNS searches (5 where none are given) and the speed.

With --identify, enters the records of RECORDS, identifies FILE without a label, and prints the
status, the number of hits, and the least time of RUNS times a thousand questions, for one question.";

// A word as a pattern text. One of few enough characters may have too many bytes: then one of its
// first bytes is of no text, and it is refused there.
fn text_of(word: &str) -> Result<PatternText<'_>, TooLong> {
    let bytes = word.as_bytes();
    let first = bytes.get(..MOST_CHARACTERS);
    let first = first.filter(|_| word.chars().count() <= MOST_CHARACTERS);
    PatternText::try_from(first.unwrap_or(bytes))
}

// The measure of a request's search, or the refusal of its text, as a line.
fn answer(rt: &HostRuntime, request: Request) -> Result<String, Complaint> {
    let alloc = rt.alloc();
    let file = fs::read(rt, request.file).map_err(Complaint::Unreadable)?;
    let text = text_of(request.text)?;
    let sequence = match Sequence::<Byte>::compile(1, Reference::Anywhere, text) {
        Ok(sequence) => sequence,
        Err(fault) => return Ok(fault.line().to_string(alloc)?),
    };
    let bytes = Bytes::new(file.as_slice());
    let measure = match request.order {
        Order::Forward => measured(rt, &sequence, &bytes, request.runs)?,
        Order::Backward => measured(rt, &sequence, &Backward::new(bytes), request.runs)?,
    };
    Ok(format!(in alloc; "{measure}")?)
}

// The answer to a question, as a line.
fn report(rt: &HostRuntime, question: Question) -> Result<String, Complaint> {
    let alloc = rt.alloc();
    let records = fs::read(rt, question.records).map_err(Complaint::Unreadable)?;
    let file = fs::read(rt, question.file).map_err(Complaint::Unreadable)?;
    match measure_reports(
        alloc,
        rt,
        records.as_slice(),
        file.as_slice(),
        question.runs,
    )? {
        Ok(identified) => Ok(format!(in alloc; "{identified}")?),
        Err(fault) => Ok(fault.line().to_string(alloc)?),
    }
}

// Prints the answer to the words of the call.
fn run(rt: &HostRuntime) -> Result<(), Complaint> {
    let args: Vec<String> = env::args(rt)?.skip(1).collect(rt.alloc())?;
    let words: Vec<&str> = args.iter().map(|word| word.as_str()).collect(rt.alloc())?;
    match Asked::try_from(words.as_slice())? {
        Asked::Usage => rt.println(USAGE).map_err(Complaint::Output),
        Asked::Search(request) => {
            let answer = answer(rt, request)?;
            rt.println(answer.as_str()).map_err(Complaint::Output)
        }
        Asked::Identify(question) => {
            let report = report(rt, question)?;
            rt.println(report.as_str()).map_err(Complaint::Output)
        }
    }
}

fn main(rt: HostRuntime) -> ExitCode {
    match run(&rt) {
        Ok(()) => ExitCode::SUCCESS,
        // Whoever read the answer has read enough.
        Err(Complaint::Output(e)) if e.kind() == ErrorKind::BrokenPipe => ExitCode::SUCCESS,
        Err(complaint) => {
            // Where that cannot be written either, the exit status still says so.
            let _ = rt.eprintln(format_args!("bench: {complaint}"));
            ExitCode::FAILURE
        }
    }
}
