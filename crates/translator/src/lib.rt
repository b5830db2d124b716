#![tactic(auto)]

ghost use Rattle.std.specs.Prelude.{◌≡◌, ◌≤◌, length};
ghost use Rattle.translator.specs.Translates.{Translation, Read, Writes};

use base::{Reason, Refusal};
use diagram::Diagram;
use postfix::Code;

// The table of a diagram that was read, over the front of `out`; answers how many bytes it has.
fn write(d: &Diagram, out: &mut [u8]) -> usize
    requires { Read d.now × (51204 ≤ length out.old) }
    ensures { Writes d.now out.old result out.new }
{
    let mut codes = [Code::Leaf; 1024];
    let n = expansion::expand(d, &mut codes);
    guards::write_table(&codes[..n], d.events, out)
}

// The table of a text, or the refusal: 1 for a buffer of under 51,204 bytes, and then reading's. A refused text leaves the buffer as it was; bytes past those
// written stay.
pub fn translate(text: &[u8], out: &mut [u8]) -> Result<usize, Refusal>
    ensures { Translation text.now out.old result out.new }
{
    if out.len() < 51204 {
        return Err(Reason::Buffer.at(0));
    }
    let d = reader::read(text)?;
    Ok(write(&d, out))
}
