//! Entries that stand, by rising id.
ghost use Rattle.std.specs.Prelude.{◌≡◌, ◌+◌, ◌*◌, ◌≤◌, ◌==◌, ℕ, List};
ghost use Rattle.std.specs.Prelude.{count_by, length, map, nat_lt, position};
ghost use Rattle.std.specs.FinMap.{contains_key};
ghost use Rattle.records.specs.Calls.{record_with};
ghost use Rattle.catalogue.specs.Standing.{bodies, Rise};
ghost use Rattle.catalogue.specs.Writing.{over_from, records_of};

/// An entry that stands: it has an id and a body.
pub(crate) trait Standing {
    ghost pair: { Self → ℕ × List ℕ };

    // Its id.
    fn id(&self) -> u16
        ensures { result ≡ (pair self.now).0 };

    // Its body, as it came.
    fn body(&self) -> &[u8]
        ensures as_it_came { result.now ≡ (pair self.now).1 }
        ensures short { length result.now ≤ 828 };
}

// The place at which an id stands, if it does.
pub(crate) fn find<S: Standing>(standing: &[S], id: u16) -> Option<usize>
    ensures { result ≡ position (λ s. (S.pair s).0 == id) standing.now }
{
    standing.iter().position(|s| s.id() == id)
}

// The place at which an id would stand: behind all that are below it.
pub(crate) fn place_of<S: Standing>(standing: &[S], id: u16) -> usize
    ensures { result ≡ count_by (λ s. nat_lt (S.pair s).0 id) standing.now }
{
    standing.iter().filter(|s| s.id() < id).count()
}

// Whether an id stands.
pub(crate) fn stands<S: Standing>(standing: &[S], id: u16) -> bool
    requires { Rise (map S.pair standing.now) }
    ensures { result ≡ contains_key (bodies (map S.pair standing.now)) id }
{
    standing.iter().any(|s| s.id() == id)
}

// How many bytes the records of entries have.
pub(crate) fn written_len<S: Standing>(standing: &[S]) -> usize
    requires { length standing.now ≤ 48 }
    ensures records { (kind : ℕ) → result ≡ length (records_of kind (map S.pair standing.now)) }
    ensures short { result ≤ 832 * length standing.now }
{
    let mut len = 0;
    for entry in standing {
        len += 4 + entry.body().len();
    }
    len
}

// Writes bytes into a buffer from a place on, and answers the place behind them.
fn write_bytes(bytes: &[u8], buffer: &mut [u8], at: usize) -> usize
    requires { at + length bytes.now ≤ length buffer.old }
    ensures place { result ≡ at + length bytes.now }
    ensures bytes { buffer.new ≡ over_from at bytes.now buffer.old }
{
    let behind = at + bytes.len();
    buffer[at..behind].copy_from_slice(bytes);
    behind
}

// Writes a record of a kind with a body into a buffer from a place on, and answers the place behind
// it.
fn write_record(kind: u16, body: &[u8], buffer: &mut [u8], at: usize) -> usize
    requires short { length body.now ≤ 828 }
    requires room { at + length (record_with kind body.now) ≤ length buffer.old }
    ensures place { result ≡ at + length (record_with kind body.now) }
    ensures bytes { buffer.new ≡ over_from at (record_with kind body.now) buffer.old }
{
    let len = body.len() as u16;
    let at = write_bytes(&len.to_le_bytes(), buffer, at);
    let at = write_bytes(&kind.to_le_bytes(), buffer, at);
    write_bytes(body, buffer, at)
}

// Writes the records of entries, of a kind, into a buffer from a place on, and answers the place
// behind them.
pub(crate) fn write_records<S: Standing>(
    standing: &[S],
    kind: u16,
    buffer: &mut [u8],
    at: usize,
) -> usize
    requires { at + length (records_of kind (map S.pair standing.now)) ≤ length buffer.old }
    ensures place { result ≡ at + length (records_of kind (map S.pair standing.now)) }
    ensures bytes { buffer.new
        ≡ over_from at (records_of kind (map S.pair standing.now)) buffer.old }
{
    let mut place = at;
    for entry in standing {
        place = write_record(kind, entry.body(), buffer, place);
    }
    place
}
