#![tactic(auto)]

ghost use Rattle.std.specs.Prelude.{◌≡◌};
ghost use Rattle.diagram.specs.Stored.{blank_diagram};

// What a node is. A replicator has its size.
#[derive(Clone, Copy, Debug, PartialEq, Eq)]
pub enum Kind {
    Flow,
    Leaf,
    And,
    Or,
    Xor,
    All(u8),
    Some(u8),
    One(u8),
    Loop,
}

// A node as it stands in the text: `solid` says whether it is a solid child; `strong` whether a flow's sw is 1, and is false for a node that is no
// flow; `at` is the place of its keyword; `name` is the place of a leaf's or flow's name or of a replicator's par, and 0 for any other node.
#[derive(Clone, Copy, Debug, PartialEq, Eq)]
pub struct Node {
    pub kind: Kind,
    pub solid: bool,
    pub strong: bool,
    pub depth: u16,
    pub at: u16,
    pub name: u16,
}

// The nodes of a text in its order, and how many node copies and events they have. Only the first `count` nodes count.
#[derive(Clone, Copy, Debug, PartialEq, Eq)]
pub struct Diagram {
    pub nodes: [Node; 256],
    pub count: usize,
    pub copies: usize,
    pub events: usize,
}

// No nodes: the diagram of a text is filled from here.
pub fn empty() -> Diagram
    ensures { result ≡ blank_diagram }
{
    let node = Node {
        kind: Kind::Leaf,
        solid: false,
        strong: false,
        depth: 0,
        at: 0,
        name: 0,
    };
    Diagram {
        nodes: [node; 256],
        count: 0,
        copies: 0,
        events: 0,
    }
}
