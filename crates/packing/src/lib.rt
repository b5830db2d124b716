#![tactic(auto)]
// Answers packed into one number, for callers that know numbers only: a refusal is its number times 2^32 and its place, a result is below 2^32. The parts of a number
// are cut to their width, so that nothing has to be known of them here.

ghost use Rattle.std.specs.Prelude.{◌≡◌, ◌+◌, ◌*◌, ◌%◌, ◌^◌, ◌≤◌, length};
ghost use Rattle.base.specs.Refusals.{number};
ghost use Rattle.base.specs.Reports.{result as result_of, written as written_report};
ghost use Rattle.reading.specs.Reports.{report as read_report};
ghost use Rattle.events.specs.Reports.{marked as marked_values, report as label_report};
ghost use Rattle.packing.specs.Packed.{beside, packed};
ghost use Rattle.packing.specs.Nodes.{node_values, place_values};

use base::Refusal;
use diagram::{Diagram, Node};
use events::Label;
use labels::Values;

// A number and a place, as every refusal is told.
pub fn refused(number: u8, place: usize) -> u64
    ensures { result ≡ number * 2 ^ 32 + place % 2 ^ 32 }
{
    u64::from(number) * 4294967296 + (place as u64) % 4294967296
}

// Every refusal is told so.
pub fn refusal(why: Refusal) -> u64
    ensures { result ≡ number why.reason * 2 ^ 32 + why.place % 2 ^ 32 }
{
    refused(why.reason.number(), why.place)
}

// Values side by side, each cut to W bits, the last one lowest.
fn beside<const W: u32>(values: &[usize]) -> u64
    requires { length values.now * W ≤ 32 }
    ensures { result ≡ beside W values.now }
{
    let mut n = 0;
    for v in values {
        let base = 1 << W;
        n = n * base + (*v as u64) % base;
    }
    n
}

// Nodes, node copies and events, of 10 bits each.
pub fn read_number(read: Result<Diagram, Refusal>) -> u64
    ensures { result ≡ packed 10 (read_report read) }
{
    match read {
        Ok(d) => beside::<10>(&[d.count, d.copies, d.events]),
        Err(why) => refusal(why),
    }
}

// The bytes written: by printing, by translation, of an event's text.
pub fn written_number(written: Result<usize, Refusal>) -> u64
    ensures { result ≡ packed 32 (written_report written) }
{
    match written {
        Ok(n) => beside::<32>(&[n]),
        Err(why) => refusal(why),
    }
}

// The mark of a reset, how many values there are, and the values, of 6 bits each.
fn marked(mark: usize, v: Values) -> u64
    ensures { result ≡ packed 6 (result_of (marked_values mark v)) }
{
    beside::<6>(&[mark, v.count, v.first, v.second, v.third])
}

pub fn label_number(label: Result<Label, Refusal>) -> u64
    ensures { result ≡ packed 6 (label_report label) }
{
    match label {
        Ok(Label::Leaf(v)) => marked(0, v),
        Ok(Label::Reset(v)) => marked(1, v),
        Err(why) => refusal(why),
    }
}

// Kind, size, whether it is a solid child, whether a flow's sw is 1, and depth, of 6 bits each.
pub fn node_number(node: Node) -> u64
    ensures { result ≡ packed 6 (result_of (node_values node)) }
{
    beside::<6>(&[
        nodes::index(node.kind),
        usize::from(nodes::size(node.kind)),
        usize::from(node.solid),
        usize::from(node.strong),
        usize::from(node.depth),
    ])
}

// Where its keyword stands, and its name or par, of 16 bits each.
pub fn place_number(node: Node) -> u64
    ensures { result ≡ packed 16 (result_of (place_values node)) }
{
    beside::<16>(&[usize::from(node.at), usize::from(node.name)])
}
