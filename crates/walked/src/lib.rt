#![tactic(auto)]

ghost use Rattle.std.specs.Prelude.{◌≡◌, ◌<◌, min};
ghost use Rattle.diagram.specs.TreeNodes.{flowing, leafy, looping, titled, copying, may_be_solid, size_of};
ghost use Rattle.walked.specs.Walk.{blank_row, begun_row, marked, named_at, with_size, sized, switched};

use diagram::{Kind, Node};

// The rows that the readers of `heads` and `walk` write, and the sweeps of `names` and `sweeps` are asked of.

// The row of a node: what the walk has written of the node, and the place past its name or par.
#[derive(Clone, Copy, Debug, PartialEq, Eq)]
pub struct Row {
    pub node: Node,
    pub past: u16,
}

// Where the next token is looked for, and how many nodes were read before it.
#[derive(Clone, Copy, Debug, PartialEq, Eq)]
pub struct Position {
    pub at: usize,
    pub nodes: usize,
}

impl Row {
    // A row that is not used: each byte is 0.
    pub fn blank() -> Row
        ensures { result ≡ blank_row }
    {
        let node = Node {
            kind: Kind::Flow,
            solid: false,
            strong: false,
            depth: 0,
            at: 0,
            name: 0,
        };
        Row { node, past: 0 }
    }

    // The row of a node whose keyword was read.
    pub fn begun(kind: Kind, at: u16, depth: u16) -> Row
        ensures { result ≡ begun_row kind at depth }
    {
        let node = Node {
            kind,
            solid: false,
            strong: false,
            depth,
            at,
            name: 0,
        };
        Row { node, past: 0 }
    }

    // The row with the solid mark.
    pub fn marked(self, solid: bool) -> Row
        ensures { result ≡ marked solid self }
    {
        Row {
            node: Node { solid, ..self.node },
            past: self.past,
        }
    }

    // The row with the place of the name or par, and the place past it.
    pub fn named(self, name: u16, past: u16) -> Row
        ensures { result ≡ named_at name past self }
    {
        Row {
            node: Node { name, ..self.node },
            past,
        }
    }

    // The row with a replicator's size.
    pub fn sized(self, size: u8) -> Row
        ensures { result ≡ sized size self }
    {
        let kind = with_size(self.node.kind, size);
        Row {
            node: Node { kind, ..self.node },
            past: self.past,
        }
    }

    // The row with a flow's sw.
    pub fn switched(self, strong: bool) -> Row
        ensures { result ≡ switched strong self }
    {
        Row {
            node: Node {
                strong,
                ..self.node
            },
            past: self.past,
        }
    }
}

impl Row {
    // The place of the keyword.
    pub fn place(&self) -> usize
        ensures { result ≡ self.now.node.at }
    {
        usize::from(self.node.at)
    }

    // The place of the name or par.
    pub fn name(&self) -> usize
        ensures { result ≡ self.now.node.name }
    {
        usize::from(self.node.name)
    }

    // The place past the name or par.
    pub fn end(&self) -> usize
        ensures value { result ≡ self.now.past }
        ensures fits { result < 65536 }
    {
        usize::from(self.past)
    }

    // The depth, which is at most 12.
    pub fn level(&self) -> usize
        ensures { result ≡ min self.now.node.depth 12 }
    {
        usize::from(self.node.depth).min(12)
    }

    // The size of a replicator, 0 for any other node.
    pub fn size(&self) -> usize
        ensures value { result ≡ size_of self.now.node.kind }
        ensures fits { result < 65536 }
    {
        match self.node.kind {
            Kind::All(size) => usize::from(size),
            Kind::Some(size) => usize::from(size),
            Kind::One(size) => usize::from(size),
            _ => 0,
        }
    }

    pub fn is_flow(&self) -> bool
        ensures { result ≡ flowing self.now.node.kind }
    {
        self.node.kind == Kind::Flow
    }

    pub fn is_leaf(&self) -> bool
        ensures { result ≡ leafy self.now.node.kind }
    {
        self.node.kind == Kind::Leaf
    }

    pub fn is_loop(&self) -> bool
        ensures { result ≡ looping self.now.node.kind }
    {
        self.node.kind == Kind::Loop
    }

    // A leaf or a flow, which have names that differ.
    pub fn is_titled(&self) -> bool
        ensures { result ≡ titled self.now.node.kind }
    {
        self.is_flow() || self.is_leaf()
    }

    // A replicator: all, some or one.
    pub fn is_replicator(&self) -> bool
        ensures { result ≡ copying self.now.node.kind }
    {
        matches!(self.node.kind, Kind::All(_) | Kind::Some(_) | Kind::One(_))
    }

    // "A leaf, flow, xor or one".
    pub fn may_be_solid(&self) -> bool
        ensures { result ≡ may_be_solid self.now.node.kind }
    {
        matches!(
            self.node.kind,
            Kind::Leaf | Kind::Flow | Kind::Xor | Kind::One(_)
        )
    }
}

fn with_size(kind: Kind, size: u8) -> Kind
    ensures { result ≡ with_size size kind }
{
    match kind {
        Kind::All(_) => Kind::All(size),
        Kind::Some(_) => Kind::Some(size),
        Kind::One(_) => Kind::One(size),
        _ => kind,
    }
}
