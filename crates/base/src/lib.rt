#![tactic(auto)]

ghost use Rattle.std.specs.Prelude.{◌≡◌, ◌^◌, ◌<◌, get_or, set, min};
ghost use Rattle.base.specs.Packed.{field, put_word as put_word_of};
ghost use Rattle.base.specs.Refusals.{number as number_of, refusal};

// Why something is turned away: document 01's numbers 1 to 15 and card 2's 16, in their order.
#[derive(Clone, Copy, Debug, PartialEq, Eq)]
pub enum Reason {
    Buffer,
    Text,
    Byte,
    Word,
    Token,
    Node,
    Name,
    Parameter,
    Solid,
    Weak,
    Count,
    Table,
    Record,
    Event,
    Guard,
    Profile,
}

// A refusal with its place.
#[derive(Clone, Copy, Debug, PartialEq, Eq)]
pub struct Refusal {
    pub reason: Reason,
    pub place: usize,
}

impl Reason {
    // The number that stands for it.
    pub fn number(self) -> u8
        ensures { result ≡ number_of self }
    {
        match self {
            Reason::Buffer => 1,
            Reason::Text => 2,
            Reason::Byte => 3,
            Reason::Word => 4,
            Reason::Token => 5,
            Reason::Node => 6,
            Reason::Name => 7,
            Reason::Parameter => 8,
            Reason::Solid => 9,
            Reason::Weak => 10,
            Reason::Count => 11,
            Reason::Table => 12,
            Reason::Record => 13,
            Reason::Event => 14,
            Reason::Guard => 15,
            Reason::Profile => 16,
        }
    }

    // The refusal for this reason at a place.
    pub fn at(self, place: usize) -> Refusal
        ensures { result ≡ refusal self place }
    {
        Refusal {
            reason: self,
            place,
        }
    }
}

// The element at i of a list; `none` past its end.
pub fn at<T: Copy>(column: &[T], i: usize, none: T) -> T
    ensures { result ≡ get_or column.now i none }
{
    column.get(i).copied().unwrap_or(none)
}

// A store that does nothing past the end of what is lent.
pub fn put<T: Copy>(column: &mut [T], i: usize, value: T)
    ensures { column.new ≡ set column.old i value }
{
    if i < column.len() {
        column[i] = value;
    }
}

// The number that the N bytes from i on make, of which there are at most 8, most significant byte first; past the end there are only zeros.
pub fn number<const N: usize>(bytes: &[u8], i: usize) -> usize
    ensures { (result ≡ field (min N 8) bytes.now i) × (result < 256 ^ min N 8) }
{
    if bytes.len() <= i {
        return 0;
    }
    let mut value = 0;
    for k in 0..N.min(8) {
        value = value * 256 + usize::from(at(bytes, i + k, 0));
    }
    value
}

// 32 bits stored at i, as far as the bytes go.
pub fn put_word(bytes: &mut [u8], i: usize, w: usize)
    ensures { bytes.new ≡ put_word_of bytes.old i w }
{
    if bytes.len() <= i {
        return;
    }
    put(bytes, i, (w / 16777216 % 256) as u8);
    put(bytes, i + 1, (w / 65536 % 256) as u8);
    put(bytes, i + 2, (w / 256 % 256) as u8);
    put(bytes, i + 3, (w % 256) as u8);
}
