#![tactic(auto)]
// The nodes of a diagram in the order of the text, as the walks over them read them.

ghost use Rattle.std.specs.Prelude.{◌≡◌, length, min, take};
ghost use Rattle.diagram.specs.TreeNodes.{size_of};
ghost use Rattle.nodes.specs.Nodes.{kind_index, form_of, depth_at};

use diagram::{Diagram, Kind, Node};
use postfix::Code;

// What a node is to a walk: a leaf, a loop, or parts that are joined, and of a replicator how many copies there are of its one part.
#[derive(Clone, Copy, Debug, PartialEq, Eq)]
pub enum Form {
    Leaf,
    Loop,
    Joined(Code, Option<u8>),
}

// Those that count: a diagram holds 256 nodes whatever its count says.
pub fn counted(d: &Diagram) -> &[Node]
    ensures value { result.now ≡ take d.now.count d.now.nodes }
    ensures how_many { length result.now ≡ min d.now.count 256 }
{
    let nodes: &[Node] = &d.nodes;
    nodes.get(..d.count).unwrap_or(nodes)
}

// The depth of node i; 0 past the last.
pub fn depth(nodes: &[Node], i: usize) -> u16
    ensures { result ≡ depth_at nodes.now i }
{
    nodes.get(i).map_or(0, |node| node.depth)
}

// Which of the kinds it is, in their order.
pub fn index(kind: Kind) -> usize
    ensures { result ≡ kind_index kind }
{
    match kind {
        Kind::Flow => 0,
        Kind::Leaf => 1,
        Kind::And => 2,
        Kind::Or => 3,
        Kind::Xor => 4,
        Kind::All(_) => 5,
        Kind::Some(_) => 6,
        Kind::One(_) => 7,
        Kind::Loop => 8,
    }
}

// A replicator's size; 0 for any other node.
pub fn size(kind: Kind) -> u8
    ensures { result ≡ size_of kind }
{
    match kind {
        Kind::All(size) | Kind::Some(size) | Kind::One(size) => size,
        _ => 0,
    }
}

impl From<Kind> for Form {
    // A flow's parts come one after the other; `and` and `all`, `or` and `some`, `xor` and `one` join alike.
    fn from(kind: Kind) -> Form
        ensures { result ≡ form_of kind }
    {
        match kind {
            Kind::Leaf => Form::Leaf,
            Kind::Loop => Form::Loop,
            Kind::Flow => Form::Joined(Code::Seq, None),
            Kind::And | Kind::All(0) => Form::Joined(Code::And, None),
            Kind::Or | Kind::Some(0) => Form::Joined(Code::Or, None),
            Kind::Xor | Kind::One(0) => Form::Joined(Code::Xor, None),
            Kind::All(size) => Form::Joined(Code::And, Some(size)),
            Kind::Some(size) => Form::Joined(Code::Or, Some(size)),
            Kind::One(size) => Form::Joined(Code::Xor, Some(size)),
        }
    }
}
