#![tactic(auto)]

ghost use Rattle.events.specs.Names.{Named};
ghost use Rattle.events.specs.Labels.{Valued};
ghost use Rattle.events.specs.Listing.{Listed};

use base::{Reason, Refusal};
use labels::Values;
use output::Writer;

// What an event is, a leaf or a reset, with the values of the replicators around it, outermost first.
#[derive(Clone, Copy)]
pub enum Label {
    Leaf(Values),
    Reset(Values),
}

// The name of an event: a leaf's, for a reset that of its body's flow; empty where the text is refused, or the number is at or past E.
pub fn name(text: &[u8], event: u64) -> &[u8]
    ensures { Named text.entry event result }
{
    let Ok(d) = reader::read(text) else {
        return &text[..0];
    };
    let Some(spot) = search::find(&d, event as usize) else {
        return &text[..0];
    };
    lexer::word(text, spot.place)
}

// The values of an event, with a mark that tells a reset from a leaf, or the refusal: 2 to 11 for the text, 14 for a number at or past E.
pub fn values(text: &[u8], event: u64) -> Result<Label, Refusal>
    ensures { Valued text.now event result }
{
    let d = reader::read(text)?;
    let Some(spot) = search::find(&d, event as usize) else {
        return Err(Reason::Event.at(0));
    };
    if spot.reset {
        return Ok(Label::Reset(spot.values));
    }
    Ok(Label::Leaf(spot.values))
}

// The listing of a text: events and node copies, then each event with its number, name and values, `reset` before a reset's; or `refused`, number and place. Answers
// how many bytes there are; those past them stay.
pub fn list(text: &[u8], out: &mut [u8; 32768]) -> usize
    ensures { Listed text.now out.old result out.new }
{
    let mut w = Writer::new(out);
    match reader::read(text) {
        Ok(d) => lines::write(text, &d, &mut w),
        Err(why) => w.refused(why),
    }
    w.at
}
