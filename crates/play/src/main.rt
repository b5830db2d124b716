#![tactic(auto)]
// Plays a run of a drawing: reads its text on standard input up to an empty line, and then events, one to a line, each said by its number or by what the listing
// calls it. Prints the answer to each, the control bits that are set and what may come next, and at the end whether the run is finished.
ghost use Rattle.std.specs.Prelude.{◌≡◌, ◌≤◌, length};
ghost use Rattle.output.specs.Buffer.{buffer};
ghost use Rattle.output.specs.Writes.{written};
ghost use Rattle.play.specs.Room.{Ready};

use output::Writer;
use record::Record;
use std::io::{Read, Write};
use std::ops::ControlFlow;

// How many bytes, and how many lines, are read at the most: more than any input has.
const MOST: u64 = 1152921504606846976;

// How many bytes are shown at a time at the most.
const SHOWN: usize = 262144;

// The next byte of the input; none at its end. One at a time, so that each line is answered when it is there.
fn read_byte<R: Read>(input: &mut R) -> Option<u8> {
    let mut one = [0u8; 1];
    if streams::read_there(input, &mut one) == 0 {
        return None;
    }
    Some(one[0])
}

// Reads a line to what is written; what there is no room for is left out. Breaks where the input ended with it.
#[tactic(auto, using(output::proofs::Buffers::put_all_within))]
fn read_line<R: Read>(input: &mut R, text: &mut Writer) -> ControlFlow<()>
    requires { text.old.at ≤ length text.old.out.now }
    ensures { text.new.at ≤ length text.new.out.now }
{
    for _ in 0..MOST {
        match read_byte(input) {
            None => return ControlFlow::Break(()),
            Some(b'\n') => return ControlFlow::Continue(()),
            Some(b) => text.byte(b),
        }
    }
    ControlFlow::Break(())
}

// Reads up to an empty line after the first.
#[tactic(auto, using(output::proofs::Buffers::put_all_within))]
fn read_drawing<R: Read>(input: &mut R, text: &mut Writer)
    requires { text.old.at ≤ length text.old.out.now }
    ensures { text.new.at ≤ length text.new.out.now }
{
    for _ in 0..MOST {
        let before = text.at;
        let line = read_line(input, text);
        if line.is_break() || (before > 0 && text.at == before) {
            return;
        }
        text.byte(b'\n');
    }
}

// Shows what was written, and leaves room for as much.
fn show<W: Write>(to: &mut W, out: &mut Writer)
    ensures same { out.new.out.ghost_name ≡ out.old.out.ghost_name }
    ensures none { written out.new ≡ buffer 0 out.old.out.now }
{
    streams::write_there(to, out.written());
    out.at = 0;
}

// A drawing that is played: its listing and its table, the record of its run, where it is shown, and what is to be shown there next.
#[derive(Drop)]
struct Game<'a, W> {
    listing: &'a [u8],
    table: &'a [u8],
    record: Record,
    to: &'a mut W,
    out: Writer<'a>,
}

impl<W: Write> Game<'_, W> {
    fn begin(&mut self)
        requires { Ready self.old.out }
        ensures { Ready self.new.out }
    {
        player::opening(self.listing, self.table, &mut self.out);
        show(self.to, &mut self.out);
    }

    // The event that is said, and the answer to it.
    fn turn(&mut self, said: &[u8])
        requires { Ready self.old.out }
        ensures { Ready self.new.out }
    {
        self.record = player::turn(self.listing, self.table, self.record, said, &mut self.out);
        show(self.to, &mut self.out);
    }

    // The next line. No event has a name of 64 bytes with its values, so a longer line is none; an empty one is passed over. Breaks with the last one.
    fn next<R: Read>(&mut self, input: &mut R) -> ControlFlow<()>
        requires { Ready self.old.out }
        ensures { Ready self.new.out }
    {
        let mut bytes = [0u8; 64];
        let mut said = Writer::new(&mut bytes);
        let line = read_line(input, &mut said);
        if said.at > 0 {
            self.turn(said.written());
        }
        line
    }

    fn end(&mut self)
        requires { Ready self.old.out }
    {
        player::closing(self.table, self.record, &mut self.out);
        show(self.to, &mut self.out);
    }

    fn run<R: Read>(&mut self, input: &mut R)
        requires { Ready self.old.out }
    {
        self.begin();
        for _ in 0..MOST {
            if self.next(input).is_break() {
                break;
            }
        }
        self.end();
    }
}

// Plays the run of a drawing by its listing and its table.
fn run<'a, R: Read, W: Write>(input: &mut R, to: &'a mut W, listing: &'a [u8], table: &'a [u8]) {
    let mut room = [0u8; SHOWN];
    let out = Writer::new(&mut room);
    let mut game = Game {
        listing,
        table,
        record: record::blank(),
        to,
        out,
    };
    game.run(input);
}

// Lists and translates a drawing, and plays its run; of a text that is turned away there is its refusal to show.
fn play<R: Read, W: Write>(input: &mut R, to: &mut W, text: &[u8]) {
    let mut listing = [0u8; 32768];
    let count = events::list(text, &mut listing);
    let mut table = [0u8; 51204];
    match translator::translate(text, &mut table) {
        Ok(length) => run(input, to, &listing[..count], &table[..length]),
        Err(_) => {
            streams::write_there(to, &listing[..count]);
        }
    }
}

fn main(rt: HostRuntime) {
    // One byte more than a text may have: a longer text is refused, and not cut.
    let mut bytes = [0u8; 16385];
    let mut text = Writer::new(&mut bytes);
    let mut input = rt.stdin();
    read_drawing(&mut input, &mut text);
    play(&mut input, &mut rt.stdout(), text.written());
}
