//! Reports, from the signatures that hit and the formats that stand.
ghost use Rattle.std.specs.Prelude.{◌≡◌, ◌≤◌, length, map};
ghost use Rattle.std.specs.List.{list_any};
ghost use Rattle.records.specs.Calls.{after, over, unless};
ghost use Rattle.records.specs.Refusals.{hits_short};
ghost use Rattle.records.specs.Report.{among_ids, hit_by, hit_of_by, report_by, specific_by};
ghost use Rattle.records.specs.Report.{tentative_among, tentative_of, unstruck_by};
ghost use Rattle.records.specs.Taken.{format_in};
ghost use Rattle.catalogue.specs.Reporting.{flagged, found_in, hitting_in};
ghost use Rattle.catalogue.specs.Standing.{formats_in};

use crate::formats::{MOST_FORMATS, StandingFormat};
use crate::hitting::Hitting;
use arrayvec::ArrayVec;
use faults::{Cause, Fault};
use records::{Format, Hit, HitStatus, Status};

/// A report: its status, and the formats that it lists.
#[derive(Drop)]
pub(crate) struct Found {
    pub(crate) status: Status,
    pub(crate) hits: ArrayVec<Hit, MOST_FORMATS>,
}

// Whether a format hits: one of its signatures does.
fn hits(hitting: &[Hitting], format: &Format) -> bool
    ensures { result ≡ hit_by (hitting_in hitting.now) (format_in format.now) }
{
    hitting.iter().any(|h| format.names(h.id))
}

// Which formats hit.
fn hit_flags(hitting: &[Hitting], formats: &[StandingFormat]) -> ArrayVec<bool, MOST_FORMATS>
    requires { length formats.now ≤ 48 }
    ensures { result.items ≡ map (hit_by (hitting_in hitting.now)) (formats_in formats.now) }
{
    let mut flags = ArrayVec::new();
    for f in formats {
        flags.push(hits(hitting, &f.format));
    }
    flags
}

// Whether one of the formats whose flags are set outranks a format.
fn is_struck(formats: &[StandingFormat], flags: &[bool], format: u16) -> bool
    ensures { result ≡ list_any (λ f. among_ids format f.outranked)
        (flagged (formats_in formats.now) flags.now) }
{
    formats
        .iter()
        .zip(flags)
        .any(|(f, hits)| *hits && f.format.outranks(format))
}

// Whether a specific signature of a format hits.
fn is_specific(hitting: &[Hitting], format: &Format) -> bool
    ensures { result ≡ specific_by (hitting_in hitting.now) (format_in format.now) }
{
    hitting.iter().any(|h| format.names(h.id) && h.specific)
}

// How a positive report lists a format.
fn hit_of(hitting: &[Hitting], format: &Format, label: &[u8]) -> Hit
    ensures { result ≡ hit_of_by (hitting_in hitting.now) label.now (format_in format.now) }
{
    Hit {
        id: format.id,
        status: if is_specific(hitting, format) {
            HitStatus::Specific
        } else {
            HitStatus::Generic
        },
        mismatch: format.warns(label),
    }
}

// The formats that a positive report lists: those that hit and are not struck.
fn positive(
    hitting: &[Hitting],
    formats: &[StandingFormat],
    flags: &[bool],
    label: &[u8],
) -> ArrayVec<Hit, MOST_FORMATS>
    requires few { length formats.now ≤ 48 }
    requires flags { flags.now ≡ map (hit_by (hitting_in hitting.now)) (formats_in formats.now) }
    ensures { result.items ≡ map (hit_of_by (hitting_in hitting.now) label.now)
        (unstruck_by (hitting_in hitting.now) (formats_in formats.now)) }
{
    let mut hits = ArrayVec::new();
    for (f, hit) in formats.iter().zip(flags) {
        if *hit && !is_struck(formats, flags, f.format.id) {
            hits.push(hit_of(hitting, &f.format, label));
        }
    }
    hits
}

// The formats that a tentative report lists: those that have an equal label.
fn tentative(formats: &[StandingFormat], label: &[u8]) -> ArrayVec<Hit, MOST_FORMATS>
    requires { length formats.now ≤ 48 }
    ensures { result.items ≡ map tentative_of (tentative_among (formats_in formats.now) label.now) }
{
    let mut hits = ArrayVec::new();
    for f in formats {
        if f.format.has_label(label) {
            hits.push(Hit {
                id: f.format.id,
                status: HitStatus::Tentative,
                mismatch: false,
            });
        }
    }
    hits
}

// The report under a label.
pub(crate) fn report(hitting: &[Hitting], formats: &[StandingFormat], label: &[u8]) -> Found
    requires { length formats.now ≤ 48 }
    ensures { found_in result
        ≡ report_by (hitting_in hitting.now) (formats_in formats.now) label.now }
{
    let flags = hit_flags(hitting, formats);
    if flags.iter().any(|hits| *hits) {
        let hits = positive(hitting, formats, &flags, label);
        return Found {
            status: Status::Positive,
            hits,
        };
    }
    let hits = tentative(formats, label);
    let status = if hits.is_empty() {
        Status::Negative
    } else {
        Status::Tentative
    };
    Found { status, hits }
}

// Writes the list of a report at the front of a list of hits, and answers the status and how many
// they are. A list that is too short stays as it was.
pub(crate) fn copy_hits(found: &Found, hits: &mut [Hit]) -> Result<(Status, usize), Fault>
    ensures answer { result
        ≡ unless (hits_short (length hits.old) (length found.now.hits.items))
        (found.now.status, length found.now.hits.items) }
    ensures hits { hits.new
        ≡ after (hits_short (length hits.old) (length found.now.hits.items)) hits.old
        (over found.now.hits.items hits.old) }
{
    let count = found.hits.len();
    if hits.len() < count {
        return Err(Fault::outside(Cause::ShortHits, count));
    }
    hits[..count].copy_from_slice(&found.hits);
    Ok((found.status, count))
}
