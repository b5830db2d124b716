#![tactic(auto)]
// What the programs read and write.
ghost use Rattle.std.specs.Prelude.{◌<◌, ◌≤◌, IfOk, length, take};
ghost use Rattle.std.specs.Bool.{OnTrue};
ghost use Rattle.std.specs.Io.KnownBytes.{Appends, Consumes, IsAtEnd};
ghost use Rattle.base.specs.Refusals.{number};
ghost use Rattle.output.specs.Lines.{refused_line};
ghost use Rattle.streams.specs.There.{there};

use base::Refusal;
use output::Writer;
use std::io::{Read, Write};

// Reads until `bytes` is full or the input ends, and says how many bytes now stand at the start; as an error, how many stood there when a read failed.
// Either way they are what the input lost.
pub fn read_full<R: Read>(input: &mut R, bytes: &mut [u8]) -> Result<usize, usize>
    ensures count { there result ≤ length bytes.new }
    ensures consumed { Consumes (R.remaining input.old) (R.remaining input.new) (take (there result) bytes.new) }
    ensures whole { IfOk result (λ n. n < length bytes.new → IsAtEnd (R.remaining input.new)) }
{
    let mut n = 0;
    while n < bytes.len() {
        match input.read(&mut bytes[n..]) {
            Ok(0) => return Ok(n),
            Ok(more) => n += more,
            Err(_) => return Err(n),
        }
    }
    Ok(n)
}

// The same, where what cannot be read counts as the end of the input.
pub fn read_there<R: Read>(input: &mut R, bytes: &mut [u8]) -> usize
    ensures count { result ≤ length bytes.new }
    ensures consumed { Consumes (R.remaining input.old) (R.remaining input.new) (take result bytes.new) }
{
    read_full(input, bytes).unwrap_or_else(|n| n)
}

// Writes bytes, and says whether all of them stand there. The programs pass over what cannot be written.
pub fn write_there<W: Write>(to: &mut W, bytes: &[u8]) -> bool
    ensures { OnTrue result (Appends (W.contents to.old) (W.contents to.new) bytes.now) }
{
    to.write_all(bytes).is_ok()
}

// Writes the line of a refusal, and says whether all of it stands there.
pub fn write_refused<W: Write>(to: &mut W, why: Refusal) -> bool
    ensures { OnTrue result (Appends (W.contents to.old) (W.contents to.new) (refused_line (number why.reason) why.place)) }
{
    let mut line = [0u8; 64];
    let mut w = Writer::new(&mut line);
    w.refused(why);
    write_there(to, w.written())
}
