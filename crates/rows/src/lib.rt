//! Sets of offsets below 1,024, as rows of bits.
#![tactic(auto)]

ghost use Rattle.std.specs.Prelude.{◌≡◌, ℕ, ◌+◌, ◌-◌, ◌*◌, ◌<◌, ◌≤◌, Bool, true, false, not, ◌&&◌, ◌||◌, if◌then◌else◌, MatchBool, MatchOption, ◌==◌, nat_le, nat_lt, slice_index, length};
ghost use Rattle.rows.specs.Words.{bit, FirstNonzero, ZeroFrom};

// How many offsets there are.
const WIDTH: usize = 1024;

// How many words hold them.
const WORDS: usize = WIDTH / 64;

/// A set of offsets below 1,024, its members.
// Offset k is bit k % 64 of word k / 64. The words from `used` on are 0, and no loop goes over
// them.
#[derive(Clone, Copy, Debug)]
pub struct Row {
    words: [u64; WORDS],
    used: usize,
    ghost within: { used ≤ 16 },
    ghost past: { ZeroFrom words used },
}

impl Row {
    ghost use Rattle.rows.specs.Rows.{member, moved, some_distance, FirstFrom, NoneFrom};

    /// The set with no member.
    pub fn new() -> Row
        ensures { (j : ℕ) → member result j ≡ false }
    {
        Row {
            words: [0; WORDS],
            used: 0,
        }
    }

    /// Adds the member k, where it is below 1,024. Any other is left out.
    pub fn insert(&mut self, k: usize)
        ensures { (j : ℕ) → member self.new j ≡ (member self.old j || (nat_lt k 1024 && j == k)) }
    {
        if k < WIDTH {
            self.used = self.used.max(k / 64 + 1);
            self.words[k / 64] |= 1 << (k % 64);
        }
    }

    /// Whether k is a member.
    pub fn contains(&self, k: usize) -> bool
        ensures { result ≡ member self.now k }
    {
        k < WIDTH && self.words[k / 64] >> (k % 64) & 1 == 1
    }

    /// Adds the members of another row.
    pub fn union(&mut self, other: &Row)
        ensures { (j : ℕ) → member self.new j ≡ (member self.old j || member other.now j) }
    {
        self.used = self.used.max(other.used);
        for i in 0..other.used {
            self.words[i] |= other.words[i];
        }
    }

    // Counts the words in use anew, up to the last one that is not 0.
    fn trim(&mut self)
        ensures words { self.new.words ≡ self.old.words }
        ensures last { 0 < self.new.used → 0 < slice_index self.new.words (self.new.used - 1) }
    {
        self.used = self.words[..self.used]
            .iter()
            .rposition(|word| *word != 0)
            .map_or(0, |last| last + 1);
    }

    /// Moves each member on by `by`. Those that come to 1,024 and past it are gone.
    // A word comes from words at or below it, so the last word is written first.
    pub fn shift(&mut self, by: usize)
        ensures { (j : ℕ) → member self.new j ≡ (nat_lt j 1024 && moved self.old by j) }
    {
        if by >= WIDTH {
            *self = Row::new();
            return;
        }
        let far = by / 64;
        let bits = by % 64;
        self.used = (self.used + far + 1).min(WORDS);
        for i in (far + 1..self.used).rev() {
            self.words[i] = carried(self.words[i - far - 1], self.words[i - far], bits);
        }
        self.words[far] = carried(0, self.words[0], bits);
        self.words[0..far].fill(0);
        self.trim();
    }

    // Adds each member moved on by `by`, those that come to stand in the words in use.
    fn union_moved(&mut self, by: usize)
        ensures added { (j : ℕ) → member self.new j
            ≡ (member self.old j || (nat_lt j (64 * self.old.used) && moved self.old by j)) }
        ensures used { self.new.used ≡ self.old.used }
    {
        let far = by / 64;
        let bits = by % 64;
        if far < self.used {
            for i in (far + 1..self.used).rev() {
                self.words[i] |= carried(self.words[i - far - 1], self.words[i - far], bits);
            }
            self.words[far] |= carried(0, self.words[0], bits);
        }
    }

    // Moves each member on by each distance from 0 to `reach`: what is moved by 0 to n, moved on by
    // at most n + 1 more.
    fn smear(&mut self, reach: usize)
        ensures { (j : ℕ) → member self.new j
            ≡ (nat_lt j 1024 && some_distance self.old 0 reach j) }
    {
        self.used = (self.used + reach / 64 + 1).min(WORDS);
        let mut done = 0;
        // No `for`: the step grows from turn to turn, and a counted loop would take up to 1,023
        // turns in place of 10.
        while done < reach {
            let step = (done + 1).min(reach - done);
            self.union_moved(step);
            done += step;
        }
        self.trim();
    }

    /// Moves each member on by each distance from `least` to `most`, both included. Those that come
    /// to 1,024 and past it are gone. Where `least` is above `most`, none is left.
    pub fn widen(&mut self, least: usize, most: usize)
        ensures { (j : ℕ) → member self.new j
            ≡ (nat_lt j 1024 && some_distance self.old least most j) }
    {
        let Some(reach) = most.checked_sub(least) else {
            *self = Row::new();
            return;
        };
        if least > 0 {
            self.shift(least);
        }
        self.smear(reach.min(WIDTH - 1));
    }

    /// Leaves out the members for which a question is answered no.
    pub fn retain<Q: Question>(&mut self, question: &Q)
        ensures { (j : ℕ) → member self.new j ≡ (member self.old j && Q.asked question.now j) }
    {
        for i in 0..self.used {
            if self.words[i] != 0 {
                self.words[i] = answered(self.words[i], 64 * i, question);
            }
        }
        self.trim();
    }

    /// Leaves out the members past `last`.
    pub fn cut(&mut self, last: usize)
        ensures { (j : ℕ) → member self.new j ≡ (nat_le j last && member self.old j) }
    {
        let edge = last / 64;
        if edge < self.used {
            self.words[edge] &= u64::MAX >> (63 - last % 64);
            self.words[edge + 1..self.used].fill(0);
            self.trim();
        }
    }

    /// The least member that is at least `from`, if there is one.
    pub fn first_from(&self, from: usize) -> Option<usize>
        ensures { MatchOption result (NoneFrom self.now from) (FirstFrom self.now from) }
    {
        let edge = from / 64;
        if edge >= self.used {
            return None;
        }
        let word = self.words[edge] >> (from % 64);
        if word != 0 {
            return Some(from + word.trailing_zeros() as usize);
        }
        let i = edge + 1 + first_nonzero(&self.words[edge + 1..self.used])?;
        Some(64 * i + self.words[i].trailing_zeros() as usize)
    }

    /// Whether there is no member.
    pub fn is_empty(&self) -> bool
        ensures { MatchBool result
            ((j : ℕ) → member self.now j ≡ false)
            ((j : ℕ) × (member self.now j ≡ true)) }
    {
        self.first_from(0).is_none()
    }
}

// Where the first word that is not 0 stands.
fn first_nonzero(words: &[u64]) -> Option<usize>
    ensures { MatchOption result
        ((k : ℕ) → k < length words.now → slice_index words.now k ≡ 0)
        (FirstNonzero words.now) }
{
    words.iter().position(|word| *word != 0)
}

// The word `high` moved up by `bits`, with the top bits of the word below it, `low`, moved in.
fn carried(low: u64, high: u64, bits: usize) -> u64
    requires { bits < 64 }
    ensures { (b : ℕ) → bit result b
        ≡ (nat_lt b 64
        && (if nat_lt b bits then bit low (64 - bits + b) else bit high (b - bits))) }
{
    high << bits | low >> 1 >> (63 - bits)
}

/// A question about offsets, which is answered yes or no for each.
// It is no closure: one is taken only under a `requires`, which no public call has here, and its
// answers are told only as a relation.
pub trait Question {
    ghost asked: { Self → ℕ → Bool };

    /// Whether the answer for an offset is yes.
    fn ask(&self, offset: usize) -> bool
        ensures { result ≡ asked self.now offset };
}

// The bits of a word for which a question is answered yes, where bit 0 stands for the offset
// `base`. It is asked from the highest bit that is set down to the lowest.
fn answered<Q: Question>(word: u64, base: usize, question: &Q) -> u64
    requires held { 0 < word }
    requires low { base ≤ 960 }
    ensures { (b : ℕ) → bit result b ≡ (bit word b && Q.asked question.now (base + b)) }
{
    let least = word.trailing_zeros();
    let end = 64 - word.leading_zeros();
    let mut on = 0;
    for bit in (least..end).rev() {
        on = on << 1 | question.ask(base + bit as usize) as u64;
    }
    on << least & word
}

#[cfg(test)]
mod tests {
    use super::*;

    // Whether an offset is another than this one.
    #[derive(Drop)]
    struct Other {
        than: usize,
    }

    impl Question for Other {
        ghost asked = { λ s j. not (j == s.than) };

        fn ask(&self, offset: usize) -> bool {
            offset != self.than
        }
    }

    // The row of these members.
    fn row_of(members: &[usize]) -> Row {
        let mut row = Row::new();
        for k in members {
            row.insert(*k);
        }
        row
    }

    // The row after a change.
    fn after<C: FnOnce(&mut Row)>(mut row: Row, change: C) -> Row
        requires { C.IsAlwaysCallable change }
    {
        change(&mut row);
        row
    }

    // Whether two rows have the same members.
    fn same(a: Row, b: Row) -> bool {
        a.words == b.words
    }

    // One member at each edge is found, and 1,024 is never one.
    #[test]
    fn holds_what_is_added(rt: HostRuntime) {
        for k in [0, 63, 64, 1023] {
            let row = row_of(&[k]);
            assert!(rt; row.contains(k) && !row.is_empty());
            assert_eq!(rt; row.first_from(0), Some(k));
            assert_eq!(rt; row.first_from(k), Some(k));
            assert_eq!(rt; row.first_from(k + 1), None);
        }
        assert!(rt; row_of(&[1024]).is_empty() && !Row::new().contains(1024));
    }

    // Bits go on into the next word, and past 1,023 they are gone.
    #[test]
    fn shifts_across_words(rt: HostRuntime) {
        let row = row_of(&[0, 63]);
        assert!(rt; same(after(row, |r| r.shift(1)), row_of(&[1, 64])));
        assert!(rt; same(after(row, |r| r.shift(64)), row_of(&[64, 127])));
        assert!(rt; same(after(row, |r| r.shift(1023)), row_of(&[1023])));
        assert!(rt; after(row, |r| r.shift(1024)).is_empty());
    }

    // Both ends of the range of distances count.
    #[test]
    fn spreads_from_the_least_to_the_most(rt: HostRuntime) {
        let row = row_of(&[63]);
        assert!(rt; same(after(row, |r| r.widen(0, 1)), row_of(&[63, 64])));
        let cut = after(after(row, |r| r.widen(1, 1024)), |r| r.cut(1023));
        assert!(rt; same(after(row, |r| r.widen(1, 960)), cut));
        assert!(rt;
            !after(row, |r| r.widen(1, 959)).contains(1023)
                && after(row, |r| r.widen(1, 960)).contains(1023)
        );
        assert!(rt;
            after(row, |r| r.widen(1, 0)).is_empty()
                && after(row, |r| r.widen(961, 1024)).is_empty()
        );
    }

    // The last offset stays.
    #[test]
    fn cuts_after_the_last(rt: HostRuntime) {
        let first = row_of(&[0]);
        let row = after(first, |r| r.widen(0, 1023));
        for last in [0, 63, 64, 1023] {
            assert!(rt;
                same(
                    after(row, |r| r.cut(last)),
                    after(first, |r| r.widen(0, last))
                )
            );
        }
        assert!(rt; same(after(row, |r| r.cut(1024)), row));
    }

    // Only the members for which the answer is no are left out.
    #[test]
    fn keeps_what_is_answered_yes(rt: HostRuntime) {
        let row = row_of(&[0, 63, 64, 1023]);
        assert!(rt; same(after(row, |r| r.retain(&Other { than: 1 })), row));
        for k in [0, 63, 64, 1023] {
            let left = after(row, |r| r.retain(&Other { than: k }));
            assert!(rt; !left.contains(k) && same(after(left, |r| r.insert(k)), row));
        }
    }
}
