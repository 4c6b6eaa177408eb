//! What the words of a call ask for.
use crate::complaint::Complaint;
use kinds::Order;

// How often a search is run where no word says it.
const RUNS: u32 = 5;

/// The file's bytes are searched for the text, in an order, a number of times.
#[derive(Clone, Copy)]
pub struct Request<'w> {
    /// The path of the file.
    pub file: &'w str,
    /// The text of the pattern.
    pub text: &'w str,
    /// How often the search is run.
    pub runs: u32,
    /// From which end of the file it is searched.
    pub order: Order,
}

/// The file's elements are identified by the records of another file, a number of times.
#[derive(Clone, Copy)]
pub struct Question<'w> {
    /// The path of the file of records.
    pub records: &'w str,
    /// The path of the reading's file.
    pub file: &'w str,
    /// How often it is asked.
    pub runs: u32,
}

/// What a call asks for.
#[derive(Clone, Copy)]
pub enum Asked<'w> {
    /// How the program is called.
    Usage,
    /// A search.
    Search(Request<'w>),
    /// A report.
    Identify(Question<'w>),
}

// What the words behind `--identify` ask for.
fn question_of<'w>(words: &[&'w str]) -> Result<Question<'w>, Complaint> {
    let (records, file, runs) = match words {
        [records, file] => (*records, *file, RUNS),
        [records, file, runs] => (*records, *file, runs_of(runs)?),
        _ => return Err(Complaint::Words),
    };
    Ok(Question {
        records,
        file,
        runs,
    })
}

/// What the words behind the program's name ask for.
impl<'w> TryFrom<&[&'w str]> for Asked<'w> {
    type Error = Complaint;

    fn try_from(words: &[&'w str]) -> Result<Asked<'w>, Complaint> {
        let (file, text, runs, order) = match words {
            [] | ["--help"] => return Ok(Asked::Usage),
            ["--identify", rest @ ..] => return Ok(Asked::Identify(question_of(rest)?)),
            [file, text] => (file, text, RUNS, Order::Forward),
            [file, text, "backward"] => (file, text, RUNS, Order::Backward),
            [file, text, runs] => (file, text, runs_of(runs)?, Order::Forward),
            [file, text, runs, "backward"] => (file, text, runs_of(runs)?, Order::Backward),
            _ => return Err(Complaint::Words),
        };
        Ok(Asked::Search(Request {
            file,
            text,
            runs,
            order,
        }))
    }
}

// How often a search is run, as a word says it.
fn runs_of(word: &str) -> Result<u32, Complaint> {
    word.parse()
        .ok()
        .filter(|runs| *runs > 0)
        .ok_or(Complaint::Runs)
}
