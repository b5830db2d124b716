ghost use Rattle.std.specs.Prelude.{◌<◌};
ghost use Rattle.output.specs.Writes.{Writes};
ghost use Rattle.variables.specs.code.Spelled.{naming};
ghost use Rattle.modelling.specs.Texts.{event_text, opening_text};
ghost use Rattle.modelling.specs.Answers.{EventAnswer, OpeningAnswer};
ghost use Rattle.machines.specs.code.Drawn.{head as head_of, Drawn, Admission};

use base::{Reason, Refusal};
use diagram::Diagram;
use output::Writer;
use postfix::Code;
use variables::Spelling;

// The diagram of a text that has a machine, or the refusal.
fn admit(text: &[u8]) -> Result<Diagram, Refusal>
    ensures { Admission text.now result }
{
    let d = reader::read(text)?;
    if profile::outside(&d) {
        return Err(Reason::Profile.at(0));
    }
    Ok(d)
}

// An event's text up to its guards.
#[tactic(auto, using(output::proofs::Buffers::put_all_append), unfolding(output::specs::Buffer::put_all))]
fn head(e: usize, spelling: &Spelling, w: &mut Writer)
    ensures { Writes w.old w.new (head_of (naming spelling.now) e) }
{
    w.bytes(b"event ");
    spelling.name(e, w);
    w.bytes(b"\nwhere\n");
}

// The text of event e of a diagram that was read.
fn write(text: &[u8], d: &Diagram, e: usize, w: &mut Writer)
    requires { Drawn text.now d.now × (e < d.now.events) }
    ensures { (k : Drawn text.now d.now) → Writes w.old w.new (event_text k.tree e) }
{
    let mut codes = [Code::Leaf; 1024];
    let n = expansion::expand(d, &mut codes);
    let variables = profile::names(d);
    let spelling = Spelling { text, variables };
    head(e, &spelling, w);
    let from = guarding::write(&codes[..n], 0, e, 1, &spelling, w);
    w.bytes(b"then\n");
    actions::write(e, from, &spelling, w);
    w.bytes(b"end\n");
}

// The Event-B event of an event's number, and how many bytes it has; or the refusal: 1 for a buffer of under 65,536 bytes, then reading's, 16 for a diagram with a
// replicator or over 32 events, 14 for a number at or past E. A refused call leaves the buffer as it was; bytes past those written stay.
pub fn event(text: &[u8], event: u64, out: &mut [u8]) -> Result<usize, Refusal>
    ensures { EventAnswer text.now event out.old result out.new }
{
    if out.len() < 65536 {
        return Err(Reason::Buffer.at(0));
    }
    let d = admit(text)?;
    if d.events as u64 <= event {
        return Err(Reason::Event.at(0));
    }
    let mut w = Writer::new(out);
    write(text, &d, event as usize, &mut w);
    Ok(w.at)
}

// A machine of a diagram that was read, up to its first event.
fn open(text: &[u8], d: &Diagram, w: &mut Writer)
    requires { Drawn text.now d.now }
    ensures { (k : Drawn text.now d.now) → Writes w.old w.new (opening_text k.tree) }
{
    let variables = profile::names(d);
    let spelling = Spelling { text, variables };
    actions::open(usize::from(d.nodes[0].name), d.events, &spelling, w);
}

// The machine of a text up to its first event: its name, its variables with their types, and all of them FALSE; or the refusal, as for an event.
pub fn opening(text: &[u8], out: &mut [u8]) -> Result<usize, Refusal>
    ensures { OpeningAnswer text.now out.old result out.new }
{
    if out.len() < 65536 {
        return Err(Reason::Buffer.at(0));
    }
    let d = admit(text)?;
    let mut w = Writer::new(out);
    open(text, &d, &mut w);
    Ok(w.at)
}
