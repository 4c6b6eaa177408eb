//! Where a placement may start.
ghost use Rattle.std.specs.Prelude.{◌≡◌, ◌+◌, ◌<◌, ◌↔◌, IsTrue, MatchOption};
ghost use Rattle.engine.specs.Finding.{last_place_of, starts_of, Start};

use patterns::Reference;
use rows::Row;

// The places from one on and, where there is a bound, not past it.
#[derive(Clone, Copy)]
pub(crate) struct Starts {
    pub(crate) from: u64,
    pub(crate) until: Option<u64>,
}

impl Starts {
    // Where a placement may start, counted from where the search begins.
    pub(crate) fn of(reference: Reference) -> Starts
        ensures { result ≡ starts_of reference }
    {
        match reference {
            Reference::Front { least, most } | Reference::Back { least, most } => Starts {
                from: u64::from(least),
                until: Some(u64::from(most)),
            },
            Reference::Anywhere => Starts {
                from: 0,
                until: None,
            },
        }
    }

    // The first place where the anchor of a placement can stand, `lead` elements behind its start,
    // if a reading can have it.
    pub(crate) fn first_place(self, lead: u32) -> Option<u32>
        ensures { MatchOption result (4294967295 < self.from + lead) (λ place. place ≡
            self.from + lead) }
    {
        place_behind(self.from, u64::from(lead))
    }

    // The last place where the anchor of a placement can stand in a reading, at most `far` elements
    // behind its start.
    pub(crate) fn last_place(self, far: u32) -> u32
        ensures { result ≡ last_place_of self.until far }
    {
        self.until.map_or(u32::MAX, |until| {
            u32::try_from(until.saturating_add(u64::from(far))).unwrap_or(u32::MAX)
        })
    }

    // Whether some member of a row, as a distance from a place back, leads to one of them.
    pub(crate) fn reached(self, row: &Row, place: u64) -> bool
        ensures { IsTrue result ↔ Start row.now place self }
    {
        let Some(most) = place.checked_sub(self.from) else {
            return false;
        };
        let least = self.until.map_or(0, |until| place.saturating_sub(until));
        row.first_from(least as usize)
            .is_some_and(|distance| distance as u64 <= most)
    }
}

// The place that stands so many elements behind another, if a reading can have it.
pub(crate) fn place_behind(place: u64, distance: u64) -> Option<u32>
    ensures { MatchOption result (4294967295 < place + distance) (λ behind. behind ≡
        place + distance) }
{
    u32::try_from(place.checked_add(distance)?).ok()
}
