#![tactic(auto)]
// Reads the text of a drawing on standard input and prints its machine, as Rodin's text editors read it: what stands before the first event, each event, and `end`. Of a
// text that is turned away it prints one line: `refused`, the number and the place.
use machines::eventb;
use std::io::Write;

// No event of a machine has more bytes, and nor has what stands before the first.
const ROOM: usize = 65536;

// The events, one after the other, up to the first number that is none. A machine has at most 32.
fn events<W: Write>(to: &mut W, text: &[u8]) {
    for e in 0..32 {
        let mut out = [0u8; ROOM];
        let Ok(n) = eventb::event(text, e, &mut out) else {
            return;
        };
        streams::write_there(to, &out[..n]);
    }
}

fn machine<W: Write>(to: &mut W, text: &[u8]) {
    let mut out = [0u8; ROOM];
    match eventb::opening(text, &mut out) {
        Ok(n) => {
            streams::write_there(to, &out[..n]);
            events(to, text);
            streams::write_there(to, b"end\n");
        }
        Err(why) => {
            streams::write_refused(to, why);
        }
    }
}

fn main(rt: HostRuntime) {
    // One byte more than a text may have: a longer text is refused, and not cut.
    let mut text = [0u8; 16385];
    let n = streams::read_there(&mut rt.stdin(), &mut text);
    machine(&mut rt.stdout(), &text[..n]);
}
