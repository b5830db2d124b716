#![tactic(auto)]
// Which event of a drawing is said, by its listing.
ghost use Rattle.std.specs.Prelude.{◌≡◌, ◌==◌, suc, ◌-◌, ◌≤◌, length, take, drop};
ghost use Rattle.std.specs.List.{position};
ghost use Rattle.said.specs.Search.{index_of};
ghost use Rattle.std.specs.Iterator.{YieldsFirstRef, item_count};
ghost use Rattle.said.specs.Lines.{lines};
ghost use Rattle.said.specs.Left.{lines_left};
ghost use Rattle.said.specs.Said.{says as says_of, event_said};

// Where the first byte b stands.
fn find(bytes: &[u8], b: u8) -> Option<usize>
    ensures { result ≡ position (λ x. x == b) bytes.now }
{
    bytes.iter().position(|x| *x == b)
}

// What stands before the first byte b, and what after it.
fn parted(bytes: &[u8], b: u8) -> (&[u8], &[u8])
    ensures before { result.0.now ≡ take (index_of b bytes.now) bytes.now }
    ensures after { result.1.now ≡ drop (suc (index_of b bytes.now)) bytes.now }
{
    match find(bytes, b) {
        Some(i) => (&bytes[..i], &bytes[i + 1..]),
        None => (bytes, &[]),
    }
}

// The lines of some bytes, without their ends: what is left of the bytes.
#[derive(Drop)]
pub struct ListingLines<'a> {
    pub left: &'a [u8],
}

impl<'a> ListingLines<'a> {
    // All of them.
    pub fn new(bytes: &'a [u8]) -> ListingLines<'a>
        ensures { lines_left result ≡ lines bytes.now }
    {
        ListingLines { left: bytes }
    }
}

impl<'a> Iterator for ListingLines<'a> {
    type Item = &'a [u8];

    ghost next_gives = { YieldsFirstRef lines_left };

    ghost remaining = { item_count lines_left };

    fn next(&mut self) -> Option<&'a [u8]> {
        if self.left.is_empty() {
            return None;
        }
        let (line, others) = parted(self.left, b'\n');
        self.left = others;
        Some(line)
    }
}

// Whether the line of an event says it: its number, or all that stands after the number and a space.
fn says(line: &[u8], said: &[u8]) -> bool
    ensures { result ≡ says_of line.now said.now }
{
    let (number, label) = parted(line, b' ');
    number == said || label == said
}

// The number of the event that is said; past the last event where there is none.
pub fn event(listing: &[u8], said: &[u8]) -> usize
    ensures { result ≡ event_said listing.now said.now }
{
    ListingLines::new(listing)
        .skip(1)
        .take_while(|line| !says(line, said))
        .count()
}
