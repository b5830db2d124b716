#![tactic(auto)]

ghost use Rattle.std.specs.Prelude.{◌≡◌, ◌≢◌, true, false, ◌+◌, ◌*◌, ◌<◌, ◌≤◌, length, take, IfSome, IfNone};
ghost use Rattle.base.specs.Packed.{field};
ghost use Rattle.layout.specs.Fields.{events as events_of, rows as rows_of, kind_of};
ghost use Rattle.layout.specs.Sound.{sized, event_sound, row_sound, events_sound, rows_sound, sound};
ghost use Rattle.layout.specs.Values.{row_value, values_of};
ghost use Rattle.layout.specs.code.Kinds.{Numbered};

// Where the fields stand in the 32 bits of an event record and of a row: dividing takes what stands below a field away, the remainder what
// stands above it.
pub const GUARD: usize = 262144;

pub const RUN: usize = 512;

pub const KIND: usize = 1073741824;

pub const SIDE: usize = 32768;

// The limits: of events and of rows.
const EVENTS: usize = 512;

pub const ROWS: usize = 12288;

// What a row says: whether its control bit is set, that a row says no, that two rows both say yes, or that one of them does.
#[derive(Clone, Copy, Debug, PartialEq, Eq)]
enum Kind {
    Bit,
    Not,
    Both,
    Either,
}

impl Kind {
    // Of a row, packed in a word.
    fn of(w: usize) -> Self
        ensures { Numbered result (kind_of w) }
    {
        match w / KIND {
            0 => Kind::Bit,
            1 => Kind::Not,
            2 => Kind::Both,
            _ => Kind::Either,
        }
    }
}

// Of event e's record, where there are m rows.
fn event_sound(w: usize, m: usize, e: usize) -> bool
    ensures { result ≡ event_sound w m e }
{
    let guard = w / GUARD;
    let first = w / RUN % RUN;
    let count = w % RUN;
    let end = if count == 0 { 0 } else { e };
    (guard < m) & (first + count == end)
}

// Of row i, where there are n events: left is below the one number, right below the other.
#[tactic(auto, unfolding(crate::specs::Sound::row_sound))]
fn row_sound(w: usize, n: usize, i: usize) -> bool
    ensures { result ≡ row_sound w n i }
{
    let left = w / SIDE % SIDE;
    let right = w % SIDE;
    let kind = Kind::of(w);
    let a = if kind == Kind::Bit { n } else { i };
    let b = if kind == Kind::Bit || kind == Kind::Not {
        1
    } else {
        i
    };
    (left < a) & (right < b)
}

// The value of a sound row, from the control bits and the rows before it. Both sides are read before the kinds that name rows are told apart: a jump for
// each kind was slower.
#[tactic(auto, using(crate::proofs::Rows::left_below, crate::proofs::Rows::right_within), unfolding(crate::specs::Values::says))]
fn row_value(w: usize, n: usize, i: usize, bits: &[u64; 8], values: &[bool; ROWS]) -> bool
    requires { (row_sound w n i ≡ true) × (i < 12288) }
    ensures { result ≡ row_value w bits.now values.now }
{
    let kind = Kind::of(w);
    let left = w / SIDE % SIDE;
    if kind == Kind::Bit {
        return record::bit(bits, left);
    }
    let x = values[left];
    let y = values[w % SIDE];
    match kind {
        Kind::Not => !x,
        Kind::Both => x & y,
        _ => x | y,
    }
}

// A table whose length fits its numbers of events and of rows, and these the limits.
#[derive(Drop)]
struct Table<'a> {
    bytes: &'a [u8],
    events: usize,
    rows: usize,
    ghost its_size: { sized bytes.now ≡ true },
    ghost its_events: { events ≡ events_of bytes.now },
    ghost its_rows: { rows ≡ rows_of bytes.now },
    ghost its_length: { (length bytes.now ≡ 4 + 4 * events + 4 * rows) × (rows ≤ 12288) },
}

impl<'a> Table<'a> {
    #[tactic(auto, unfolding(crate::specs::Sound::sized))]
    fn of(bytes: &'a [u8]) -> Option<Self>
        ensures some { IfSome result (λ t. t.bytes.now ≡ bytes.now) }
        ensures none { IfNone result (sized bytes.now ≡ false) }
    {
        let events = base::number::<2>(bytes, 0);
        let rows = base::number::<2>(bytes, 2);
        let limited = (1..=EVENTS).contains(&events) && (1..=ROWS).contains(&rows);
        if !limited || bytes.len() != 4 + 4 * events + 4 * rows {
            return None;
        }
        Some(Table {
            bytes,
            events,
            rows,
        })
    }

    // Word k of those that stand after E and R: event records, then rows. Read from a part of four bytes, so that the compiled code looks for no end.
    fn word(&self, k: usize) -> usize
        requires { k < self.now.events + self.now.rows }
        ensures { result ≡ field 4 self.now.bytes.now (4 + 4 * k) }
    {
        let at = 4 + 4 * k;
        base::number::<4>(&self.bytes[at..at + 4], 0)
    }

    fn events_sound(&self) -> bool
        ensures { result ≡ events_sound self.now.bytes.now (events_of self.now.bytes.now) }
    {
        for e in 0..self.events {
            if !event_sound(self.word(e), self.rows, e) {
                return false;
            }
        }
        true
    }

    fn rows_sound(&self) -> bool
        ensures { result ≡ rows_sound self.now.bytes.now (rows_of self.now.bytes.now) }
    {
        for i in 0..self.rows {
            if !row_sound(self.word(self.events + i), self.events, i) {
                return false;
            }
        }
        true
    }

    // Whether all rows are sound; works out the rows up to the first that is not, lowest row first.
    fn rows_worked(&self, bits: &[u64; 8], values: &mut [bool; ROWS]) -> bool
        ensures value { result ≡ rows_sound self.now.bytes.now (rows_of self.now.bytes.now) }
        ensures values_after { result ≡ true → take (rows_of self.now.bytes.now) values.new ≡ values_of self.now.bytes.now bits.now }
    {
        for i in 0..self.rows {
            let w = self.word(self.events + i);
            if !row_sound(w, self.events, i) {
                return false;
            }
            let value = row_value(w, self.events, i, bits, values);
            values[i] = value;
        }
        true
    }
}

// Whether a table is sound.
#[tactic(auto, unfolding(crate::specs::Sound::sound))]
pub fn sound(t: &[u8]) -> bool
    ensures { result ≡ sound t.now }
{
    let Some(table) = Table::of(t) else {
        return false;
    };
    table.events_sound() && table.rows_sound()
}

// Whether a table is sound; where it is, `values` has what every row says.
#[tactic(auto, unfolding(crate::specs::Sound::sound))]
pub fn work_out(t: &[u8], bits: &[u64; 8], values: &mut [bool; ROWS]) -> bool
    ensures value { result ≡ sound t.now }
    ensures values_after { result ≡ true → take (rows_of t.now) values.new ≡ values_of t.now bits.now }
{
    let Some(table) = Table::of(t) else {
        return false;
    };
    table.events_sound() && table.rows_worked(bits, values)
}
