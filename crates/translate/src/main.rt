#![tactic(auto)]
// Reads the text of a drawing on standard input and writes its table. A text that is turned away writes nothing there, and on standard error `refused`, the number and
// the place.
fn main(rt: HostRuntime) {
    // One byte more than a text may have: a longer text is refused, and not cut.
    let mut text = [0u8; 16385];
    let n = streams::read_there(&mut rt.stdin(), &mut text);
    let mut table = [0u8; 51204];
    match translator::translate(&text[..n], &mut table) {
        Ok(length) => streams::write_there(&mut rt.stdout(), &table[..length]),
        Err(why) => streams::write_refused(&mut rt.stderr(), why),
    };
}
