#![tactic(auto)]
// Reads the text of a drawing on standard input and prints its listing.
fn main(rt: HostRuntime) {
    // One byte more than a text may have: a longer text is refused, and not cut.
    let mut text = [0u8; 16385];
    let n = streams::read_there(&mut rt.stdin(), &mut text);
    let mut out = [0u8; 32768];
    let count = events::list(&text[..n], &mut out);
    streams::write_there(&mut rt.stdout(), &out[..count]);
}
