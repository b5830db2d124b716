#![tactic(auto)]

ghost use Rattle.std.specs.Prelude.{◌≡◌, ◌<◌, ◌≤◌, ℕ, suc, [], eqb, map, take, length, get_or};
ghost use Rattle.nodes.specs.Nodes.{form_of};
ghost use Rattle.labels.specs.SearchNodes.{search_node};
ghost use Rattle.labels.specs.Weights.{parts as parts_of, resets as resets_of, weight_by, weight as weight_of, weigh as weigh_nodes, with_weight};
ghost use Rattle.labels.specs.Seeks.{next, into_copy as into_copy_of, inside as inside_of, turn as turn_of, seek as seek_of, begin, spot_of};

use diagram::{Diagram, Node};
use labels::{Search, SearchNode, Spot, Values};
use nodes::Form;
use std::ops::ControlFlow;

// No node is left: like a leaf with no events.
const NONE: SearchNode = SearchNode {
    form: Form::Leaf,
    depth: 0,
    place: 0,
    weight: 0,
};

// The events of the parts of a node, those of the nodes at the front that are one deeper than it.
fn parts(depth: usize, rest: &[SearchNode]) -> usize
    ensures value { result ≡ parts_of depth 0 rest.now }
    ensures upper_bound { result < 1024 }
{
    let mut n = 0;
    for node in rest {
        if node.depth <= depth {
            return n;
        }
        if node.depth - depth == 1 {
            n = (n + node.weight % 1024) % 1024;
        }
    }
    n
}

// A loop over the first of these nodes has a reset if that is there and no leaf.
fn resets(rest: &[SearchNode]) -> bool
    ensures { result ≡ resets_of rest.now }
{
    match rest.first() {
        Some(member) => !matches!(member.form, Form::Leaf),
        None => false,
    }
}

// How many events one copy of a node has, by its form and the nodes after it.
fn weight(form: Form, depth: usize, rest: &[SearchNode]) -> usize
    ensures value { result ≡ weight_by form (parts_of depth 0 rest.now) (resets_of rest.now) }
    ensures upper_bound { result < 1024 }
{
    let n = parts(depth, rest);
    match form {
        Form::Leaf => 1,
        Form::Loop => (n + usize::from(resets(rest)) % 1024) % 1024,
        Form::Joined(_, None) => n,
        Form::Joined(_, Some(size)) => usize::from(size) * n % 1024,
    }
}

// A node with its events, by the nodes after it.
#[tactic(auto, unfolding(labels::specs::Weights::weight))]
fn weighed(node: Node, rest: &[SearchNode]) -> SearchNode
    ensures { result ≡ with_weight (search_node node) (weight_of (search_node node) rest.now) }
{
    let form = Form::from(node.kind);
    let depth = usize::from(node.depth);
    SearchNode {
        form,
        depth,
        place: usize::from(node.name),
        weight: weight(form, depth, rest),
    }
}

// The nodes of a diagram that count with how many events one copy of each of them has, worked out from the last to the first.
pub fn weigh(d: &Diagram) -> [SearchNode; 256]
    ensures counted { take d.now.count result ≡ weigh_nodes (map search_node (take d.now.count d.now.nodes)) }
    ensures others { (i : ℕ) → d.now.count ≤ i → get_or result i (next []) ≡ next [] }
{
    let nodes = nodes::counted(d);
    let mut weighed_nodes = [NONE; 256];
    for i in (0..nodes.len()).rev() {
        weighed_nodes[i] = weighed(nodes[i], &weighed_nodes[i + 1..nodes.len()]);
    }
    weighed_nodes
}

// Into a copy of a replicator's member, which has these events.
#[tactic(auto, unfolding(labels::specs::Seeks::into_copy))]
fn into_copy(depth: usize, inner: usize, s: Search) -> Search
    ensures { result ≡ into_copy_of depth inner s }
{
    if inner == 0 {
        return Search { above: depth, ..s };
    }
    Search {
        above: depth,
        rest: s.rest % inner,
        values: s.values.push(s.rest / inner),
    }
}

// The event is one of node r's, and q is the node after it.
#[tactic(auto, unfolding(labels::specs::Seeks::inside))]
fn inside(r: SearchNode, q: SearchNode, s: Search) -> ControlFlow<Spot, Search>
    ensures { result ≡ inside_of r q s }
{
    let values = s.values;
    match r.form {
        Form::Leaf => ControlFlow::Break(Spot {
            reset: false,
            place: r.place,
            values,
        }),
        Form::Loop if q.weight <= s.rest => ControlFlow::Break(Spot {
            reset: true,
            place: q.place,
            values,
        }),
        Form::Loop | Form::Joined(_, None) => ControlFlow::Continue(Search {
            above: r.depth,
            ..s
        }),
        Form::Joined(_, Some(_)) => ControlFlow::Continue(into_copy(r.depth, q.weight, s)),
    }
}

// Whether a node at this depth is a part of the node searched in.
fn is_part(depth: usize, above: usize) -> bool
    ensures { result ≡ eqb depth (suc above) }
{
    above < depth && depth - above == 1
}

// One node further: node r, and q is the node after it.
fn turn(r: SearchNode, q: SearchNode, s: Search) -> ControlFlow<Spot, Search>
    ensures { result ≡ turn_of r q s }
{
    if !is_part(r.depth, s.above) {
        return ControlFlow::Continue(s);
    }
    if r.weight <= s.rest {
        return ControlFlow::Continue(Search {
            rest: s.rest - r.weight,
            ..s
        });
    }
    inside(r, q, s)
}

// What an event number stands for, by the nodes in the order of the text.
pub fn seek(nodes: &[SearchNode], event: usize) -> Option<Spot>
    ensures { result ≡ seek_of nodes.now (begin event) }
{
    let mut s = Search {
        above: 0,
        rest: event,
        values: Values::none(),
    };
    for (i, r) in nodes.iter().enumerate() {
        if is_part(r.depth, s.above) {
            let q = base::at(nodes, i + 1, NONE);
            match turn(*r, q, s) {
                ControlFlow::Break(spot) => return Some(spot),
                ControlFlow::Continue(further) => s = further,
            }
        }
    }
    None
}

// What an event number of a diagram stands for.
#[tactic(auto, unfolding(labels::specs::Seeks::spot_of))]
pub fn find(d: &Diagram, event: usize) -> Option<Spot>
    ensures { result ≡ spot_of d.now event }
{
    let nodes: &[SearchNode] = &weigh(d);
    seek(nodes.get(..d.count).unwrap_or(nodes), event)
}
