#![tactic(auto)]

ghost use Rattle.std.specs.Prelude.{◌≡◌};
ghost use Rattle.layout.specs.Fields.{event_record};
ghost use Rattle.rows.specs.code.Words.{word as word_of};

// "A row: kind (2 bits), left (15), right (15)", by its kind, from 0 to 3.
#[derive(Clone, Copy, Debug, PartialEq, Eq)]
pub enum Row {
    Bit(u16),
    Not(u16),
    Both(u16, u16),
    Either(u16, u16),
}

impl Row {
    // Packed into a word, each field where `layout` reads it.
    pub fn word(self) -> usize
        ensures { result ≡ word_of self }
    {
        match self {
            Row::Bit(e) => usize::from(e) * layout::SIDE,
            Row::Not(a) => layout::KIND + usize::from(a) * layout::SIDE,
            Row::Both(a, b) => { 2 * layout::KIND + usize::from(a) * layout::SIDE + usize::from(b) }
            Row::Either(a, b) => {
                3 * layout::KIND + usize::from(a) * layout::SIDE + usize::from(b)
            }
        }
    }
}

// "An event record: guard row (14 bits), first cleared bit (9), cleared count (9)", packed like a row.
pub fn record(guard: u16, first: u16, count: u16) -> usize
    ensures { result ≡ event_record guard first count }
{
    usize::from(guard) * layout::GUARD + usize::from(first) * layout::RUN + usize::from(count)
}
