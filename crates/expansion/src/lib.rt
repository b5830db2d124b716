#![tactic(auto)]

ghost use Rattle.std.specs.Prelude.{◌≡◌, take, length, ◌<◌};
ghost use Rattle.expansion.specs.Walks.{Place, add as added, further as further_of, more as more_of, looped as looped_of, part as part_of, expanded};

use diagram::{Diagram, Kind, Node};
use nodes::Form;
use postfix::Code;

// Where a walk over the nodes stands: the next node, and how many codes are written.
#[derive(Clone, Copy)]
pub struct Walk {
    pub node: usize,
    pub count: usize,
}

// One code more, where there is room.
#[tactic(auto, unfolding(crate::specs::Walks::add))]
fn add(codes: &mut [Code], code: Code, s: Walk) -> Walk
    ensures { record { walk = result; codes = codes.new } ≡ added code (record { walk = s; codes = codes.old }) }
{
    if 1024 <= s.count {
        return s;
    }
    base::put(codes, s.count, code);
    Walk {
        count: s.count + 1,
        ..s
    }
}

// The node that the walk stands at, with those below it.
#[cycle(walk)]
fn part(nodes: &[Node], left: usize, s: Walk, codes: &mut [Code]) -> Walk
    ensures { record { walk = result; codes = codes.new } ≡ part_of left nodes.now (record { walk = s; codes = codes.old }) }
{
    if left == 0 || nodes.len() <= s.node {
        return s;
    }
    let inside = Walk {
        node: s.node + 1,
        ..s
    };
    match Form::from(nodes[s.node].kind) {
        Form::Leaf => add(codes, Code::Leaf, inside),
        Form::Loop => looped(nodes, left - 1, inside, codes),
        Form::Joined(code, copies) => {
            let first = part(nodes, left - 1, inside, codes);
            further(nodes, left - 1, s.node, code, copies, first, codes)
        }
    }
}

// A loop's member.
#[cycle(walk)]
fn looped(nodes: &[Node], left: usize, s: Walk, codes: &mut [Code]) -> Walk
    ensures { record { walk = result; codes = codes.new } ≡ looped_of (part_of left nodes.now) nodes.now (record { walk = s; codes = codes.old }) }
{
    if s.node < nodes.len() && matches!(nodes[s.node].kind, Kind::Leaf) {
        let after = Walk {
            node: s.node + 1,
            ..s
        };
        return add(codes, Code::Again, after);
    }
    let body = part(nodes, left, s, codes);
    add(codes, Code::Rounds, body)
}

// How many parts may follow the first: the other copies, or any nodes.
fn more(copies: Option<u8>) -> u8
    ensures { result ≡ more_of copies }
{
    copies.map_or(255, |size| size.saturating_sub(1))
}

// The parts of node i after the first, each joined to those before it.
#[cycle(walk)]
fn further(
    nodes: &[Node],
    left: usize,
    i: usize,
    code: Code,
    copies: Option<u8>,
    first: Walk,
    codes: &mut [Code],
) -> Walk
    requires { i < length nodes.now }
    ensures { record { walk = result; codes = codes.new } ≡ further_of (part_of left nodes.now) nodes.now i code copies (more_of copies) (record { walk = first; codes = codes.old }) }
{
    let mut t = first;
    for _turn in 0..more(copies) {
        let node = match copies {
            None => t.node,
            Some(_) => i + 1,
        };
        if nodes::depth(nodes, node) <= nodes::depth(nodes, i) {
            return t;
        }
        let again = Walk { node, ..t };
        let after = part(nodes, left, again, codes);
        t = add(codes, code, after);
    }
    t
}

// The process of a diagram in postfix order, over the front of `codes`; answers how many codes there are.
pub fn expand(d: &Diagram, codes: &mut [Code]) -> usize
    ensures value { result ≡ (expanded d.now codes.old).walk.count }
    ensures codes_after { codes.new ≡ (expanded d.now codes.old).codes }
{
    let start = Walk { node: 0, count: 0 };
    part(nodes::counted(d), 12, start, codes).count
}
