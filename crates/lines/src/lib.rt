#![tactic(auto, using(output::proofs::Buffers::put_all_append), unfolding(output::specs::Buffer::put_all))]

ghost use Rattle.std.specs.Prelude.{◌≡◌};
ghost use Rattle.output.specs.Writes.{Writes, written};
ghost use Rattle.lines.specs.code.Written.{line_head, spaced_value, spaced_values, line_at};
ghost use Rattle.lines.specs.code.Walks.{Walks, place, tell as told_so, flow_name as flow_name_of, parts as parts_of, copies as copies_of, part as part_of, walked_listing};

use diagram::{Diagram, Kind, Node};
use labels::Values;
use nodes::Form;
use output::Writer;

// What stands after the nodes that count.
const BLANK: Node = Node {
    kind: Kind::Leaf,
    solid: false,
    strong: false,
    depth: 0,
    at: 0,
    name: 0,
};

// Where the walk over the nodes stands: the number of the next event, and the next node.
#[derive(Clone, Copy)]
struct Walk {
    event: usize,
    node: usize,
}

// The number of an event, and `reset` for a reset, a space after each.
#[tactic(auto, using(output::proofs::Buffers::put_all_append), unfolding(crate::specs::code::Written::line_head))]
fn head(e: usize, reset: bool, w: &mut Writer)
    ensures { Writes w.old w.new (line_head e reset) }
{
    w.number(e);
    if reset {
        return w.bytes(b" reset ");
    }
    w.bytes(b" ")
}

// A value after a space, if it is there.
fn value(there: bool, v: usize, w: &mut Writer)
    ensures { Writes w.old w.new (spaced_value there v) }
{
    if there {
        w.bytes(b" ");
        w.number(v);
    }
}

#[tactic(auto, using(output::proofs::Buffers::put_all_append), unfolding(crate::specs::code::Written::spaced_values))]
fn spaced(v: Values, w: &mut Writer)
    ensures { Writes w.old w.new (spaced_values v) }
{
    value(0 < v.count, v.first, w);
    value(1 < v.count, v.second, w);
    value(2 < v.count, v.third, w);
}

// The line of event e, whose name stands at a place of the text.
fn line(text: &[u8], e: usize, reset: bool, name: usize, values: Values, w: &mut Writer)
    ensures { Writes w.old w.new (line_at text.now e reset name values) }
{
    head(e, reset, w);
    w.bytes(lexer::word(text, name));
    spaced(values, w);
    w.bytes(b"\n");
}

// One line more, for the event with the next number.
fn tell(text: &[u8], reset: bool, name: u16, values: Values, s: Walk, w: &mut Writer) -> Walk
    ensures { Walks w.old w.new s result (λ p. place p.node (told_so text.now reset name values p.so_far)) }
{
    line(text, s.event, reset, usize::from(name), values, w);
    Walk {
        event: s.event % 1024 + 1,
        ..s
    }
}

// The place of the name of node i, a loop's member, if it is a flow.
fn flow_name(nodes: &[Node], i: usize) -> Option<u16>
    ensures { result ≡ flow_name_of nodes.now i }
{
    match nodes.get(i) {
        Some(member) if !matches!(member.kind, Kind::Leaf) => Some(member.name),
        _ => None,
    }
}

// A drawing that is read: its text and its nodes.
#[derive(Clone, Copy)]
struct Drawing<'a> {
    text: &'a [u8],
    nodes: &'a [Node],
}

impl<'a> Drawing<'a> {
    // The node that the walk stands at, with those below it. A diagram holds 256 nodes, and after those that count the walk reads blank leaves.
    #[cycle(walk)]
    fn part(&self, left: usize, values: Values, s: Walk, w: &mut Writer) -> Walk
        ensures { Walks w.old w.new s result (part_of self.now.text.now left self.now.nodes.now values) }
    {
        let nodes = self.nodes;
        if left == 0 || 256 <= s.node {
            return s;
        }
        let node = base::at(nodes, s.node, BLANK);
        let inside = Walk {
            node: s.node + 1,
            ..s
        };
        match Form::from(node.kind) {
            Form::Leaf => tell(self.text, false, node.name, values, inside, w),
            Form::Loop => {
                let after = self.parts(left - 1, s.node, values, inside, w);
                match flow_name(nodes, inside.node) {
                    Some(name) => tell(self.text, true, name, values, after, w),
                    None => after,
                }
            }
            Form::Joined(_, None) => self.parts(left - 1, s.node, values, inside, w),
            Form::Joined(_, Some(size)) => self.copies(left - 1, values, size, inside, w),
        }
    }

    // The parts of node i, one after the other.
    #[cycle(walk)]
    fn parts(&self, left: usize, i: usize, values: Values, s: Walk, w: &mut Writer) -> Walk
        ensures { Walks w.old w.new s result (parts_of (part_of self.now.text.now left self.now.nodes.now values) self.now.nodes.now i 255) }
    {
        let nodes = self.nodes;
        let mut t = s;
        for _turn in 0..255u8 {
            if nodes::depth(nodes, t.node) <= nodes::depth(nodes, i) {
                return t;
            }
            t = self.part(left, values, t, w);
        }
        t
    }

    // The copies of what a replicator is over, the node that the walk stands at: one for each value.
    #[cycle(walk)]
    fn copies(&self, left: usize, values: Values, size: u8, s: Walk, w: &mut Writer) -> Walk
        ensures { Walks w.old w.new s result (copies_of (part_of self.now.text.now left self.now.nodes.now) s.node values 0 size) }
    {
        let mut t = s;
        for value in 0..size {
            let again = Walk { node: s.node, ..t };
            t = self.part(left, values.push(usize::from(value)), again, w);
        }
        t
    }
}

// The listing of a drawing that is read.
pub fn write(text: &[u8], d: &Diagram, w: &mut Writer)
    ensures same { w.new.out.ghost_name ≡ w.old.out.ghost_name }
    ensures listing { written w.new ≡ walked_listing text.now d.now (written w.old) }
{
    w.numbers(b"events ", d.events, b" copies ", d.copies);
    let nodes = nodes::counted(d);
    let start = Walk { event: 0, node: 0 };
    Drawing { text, nodes }.part(12, Values::none(), start, w);
}
