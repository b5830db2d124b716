#![tactic(auto)]

ghost use Rattle.std.specs.Prelude.{◌≡◌};
ghost use Rattle.grammar.specs.Printed.{printed};
ghost use Rattle.output.specs.Writes.{Writes};
ghost use Rattle.printer.specs.Prints.{print_of, left_by};

use base::{Reason, Refusal};
use lexer::Lexer;
use output::Writer;

// The tokens, one after the other. Those that stand side by side are copied at once.
fn copy(text: &[u8], w: &mut Writer)
    ensures { Writes w.old w.new (printed text.now) }
{
    let lexer = Lexer::new(text);
    let mut at = lexer.gap(0);
    while at < text.len() {
        let end = lexer.run_end(at);
        w.bytes(&text[at..end]);
        at = lexer.gap(end);
    }
}

// The text without its blanks, or the refusal: 1 for a buffer of under 16,384 bytes, and then reading's. A refused text leaves the buffer as
// it was; bytes past those written stay.
pub fn print(text: &[u8], out: &mut [u8]) -> Result<usize, Refusal>
    ensures value { result ≡ print_of text.now out.old }
    ensures out_after { out.new ≡ left_by text.now out.old (print_of text.now out.old) }
{
    if out.len() < 16384 {
        return Err(Reason::Buffer.at(0));
    }
    reader::read(text)?;
    let mut w = Writer::new(out);
    copy(text, &mut w);
    Ok(w.at)
}
