#![tactic(auto, using(output::proofs::Buffers::put_all_append), unfolding(output::specs::Buffer::put_all))]

ghost use Rattle.std.specs.Prelude.{◌≡◌};
ghost use Rattle.output.specs.Writes.{Writes};
ghost use Rattle.player.specs.Shown.{item as item_of, events_line as events_line_of, next_bits as next_bits_of, state_text, answer_line as answer_line_of, stepped_text, said_step, opening_text, closing_text};

use base::Refusal;
use output::Writer;
use record::Record;
use said::ListingLines;

// An event's line in brackets, if it is there.
fn item(there: bool, line: &[u8], out: &mut Writer)
    ensures { Writes out.old out.new (item_of there line.now) }
{
    if there {
        out.bytes(b" [");
        out.bytes(line);
        out.byte(b']')
    }
}

// A line: a word, and the events of a listing whose bits are set.
fn events_line(word: &[u8], listing: &[u8], bits: &[u64; 8], out: &mut Writer)
    ensures { Writes out.old out.new (events_line_of word.now listing.now bits.now) }
{
    out.bytes(word);
    for (e, line) in ListingLines::new(listing).skip(1).enumerate() {
        item(record::bit(bits, e), line, out);
    }
    out.bytes(b"\n");
}

// A bit for each event that may come next; none is set where the offer is refused.
#[tactic(auto, unfolding(crate::specs::Shown::next_bits))]
fn next_bits(table: &[u8], r: Record) -> [u64; 8]
    ensures { result ≡ next_bits_of table.now r }
{
    let mut offered = [0; 64];
    let _ = table::offer(table, r, &mut offered);
    record::load(&offered)
}

// The control bits that are set, and what may come next.
#[tactic(auto, using(output::proofs::Buffers::put_all_append), unfolding(crate::specs::Shown::state_text))]
fn state_lines(listing: &[u8], table: &[u8], r: Record, out: &mut Writer)
    ensures { Writes out.old out.new (state_text listing.now table.now r) }
{
    events_line(b"bits", listing, &r.bits, out);
    events_line(b"next", listing, &next_bits(table, r), out);
}

// What was said, and the answer to it.
#[tactic(auto, using(output::proofs::Buffers::put_all_append), unfolding(output::specs::Buffer::put_all, crate::specs::Shown::answer_line))]
fn answer_line(said: &[u8], answer: Result<(), Refusal>, out: &mut Writer)
    ensures { Writes out.old out.new (answer_line_of said.now answer) }
{
    out.bytes(said);
    out.bytes(b": ");
    match answer {
        Ok(()) => out.bytes(b"done\n"),
        Err(why) => out.refused(why),
    }
}

// Takes the event that is said, by its number or by what the listing calls it, and shows the answer, the control bits that are set and what may come next; as far
// as `out` goes. Answers the record after the event.
#[tactic(auto, using(output::proofs::Buffers::put_all_append), unfolding(crate::specs::Shown::stepped_text, crate::specs::Shown::said_step))]
pub fn turn(listing: &[u8], table: &[u8], before: Record, said: &[u8], out: &mut Writer) -> Record
    ensures shown { Writes out.old out.new (stepped_text listing.now table.now said.now (said_step listing.now table.now before said.now)) }
    ensures after { result ≡ (said_step listing.now table.now before said.now).after }
{
    let stepped = table::step(table, before, said::event(listing, said) as u64);
    answer_line(said, stepped.answer, out);
    state_lines(listing, table, stepped.after, out);
    stepped.after
}

// What is shown before the first event.
#[tactic(auto, using(output::proofs::Buffers::put_all_append), unfolding(output::specs::Buffer::put_all, crate::specs::Shown::opening_text))]
pub fn opening(listing: &[u8], table: &[u8], out: &mut Writer)
    ensures { Writes out.old out.new (opening_text listing.now table.now) }
{
    out.bytes(ListingLines::new(listing).next().unwrap_or(b""));
    out.byte(b'\n');
    state_lines(listing, table, record::blank(), out);
}

// What is shown after the last event: whether the run is finished.
#[tactic(auto, unfolding(crate::specs::Shown::closing_text))]
pub fn closing(table: &[u8], r: Record, out: &mut Writer)
    ensures { Writes out.old out.new (closing_text table.now r) }
{
    match table::finished(table, r) {
        Ok(true) => out.bytes(b"finished\n"),
        Ok(false) => out.bytes(b"not finished\n"),
        Err(why) => out.refused(why),
    }
}
