//! Reports: what a reading is found to be.
ghost use Rattle.std.specs.Prelude.{Some};
ghost use Rattle.records.specs.Printed.{hit_status_text, hit_text, status_text};

use std::fmt;

/// The status of a report.
#[derive(Clone, Copy, PartialEq, Eq, Debug)]
pub enum Status {
    /// A format hits.
    Positive,
    /// No format hits, and some have a label that equals the given one.
    Tentative,
    /// Neither.
    Negative,
}

/// The word of the status.
impl fmt::Display for Status {
    ghost output = { λ status. Some (status_text status) };

    fn fmt<W: fmt::Write>(&self, f: &mut fmt::Formatter<W>) -> fmt::Result {
        match self {
            Status::Positive => write!(f, "positive"),
            Status::Tentative => write!(f, "tentative"),
            Status::Negative => write!(f, "negative"),
        }
    }
}

/// How a format of a report was found.
#[derive(Clone, Copy, PartialEq, Eq, Debug)]
pub enum HitStatus {
    /// A specific signature of the format hits.
    Specific,
    /// A signature of the format hits, and no specific one does.
    Generic,
    /// No format hits, and this one has a label that equals the given one.
    Tentative,
}

/// The word of the status.
impl fmt::Display for HitStatus {
    ghost output = { λ status. Some (hit_status_text status) };

    fn fmt<W: fmt::Write>(&self, f: &mut fmt::Formatter<W>) -> fmt::Result {
        match self {
            HitStatus::Specific => write!(f, "specific"),
            HitStatus::Generic => write!(f, "generic"),
            HitStatus::Tentative => write!(f, "tentative"),
        }
    }
}

/// A format of a report.
#[derive(Clone, Copy, PartialEq, Eq, Debug)]
pub struct Hit {
    /// The format's id.
    pub id: u16,
    /// How it was found.
    pub status: HitStatus,
    /// Whether it warns: the format hits and has labels, and none equals the given one.
    pub mismatch: bool,
}

/// A place in a list for reports, before one is written.
impl Default for Hit {
    fn default() -> Self {
        Hit {
            id: 0,
            status: HitStatus::Tentative,
            mismatch: false,
        }
    }
}

/// The id, the status, and `mismatch` if the format warns, a space before each but the first.
impl fmt::Display for Hit {
    ghost output = { λ hit. Some (hit_text hit) };

    fn fmt<W: fmt::Write>(&self, f: &mut fmt::Formatter<W>) -> fmt::Result {
        let id = self.id;
        let status = self.status;
        if self.mismatch {
            write!(f, "{id} {status} mismatch")
        } else {
            write!(f, "{id} {status}")
        }
    }
}
