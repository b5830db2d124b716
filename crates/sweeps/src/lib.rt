#![tactic(auto)]

ghost use Rattle.std.specs.Prelude.{◌≡◌, not, ◌&&◌, cond, List, [], ℕ, ◌+◌, ◌*◌, ◌≤◌, ◌<◌, eqb, length, drop, Option, Some, IfSome};
ghost use Rattle.base.specs.declared.Reason.TheVariants.{Weak};
ghost use Rattle.diagram.specs.TreeNodes.{TextNode, flowing, copying, size_of};
ghost use Rattle.grammar.specs.Keys.{keyword_at};
ghost use Rattle.rules.specs.Kept.{fault, solids_kept, strongs_kept};
ghost use Rattle.rules.specs.Counted.{total, any_node, eventful, capped};
ghost use Rattle.rules.specs.Judged.{refuse, counted, verdict as verdict_of};
ghost use Rattle.walked.specs.Rows.{Rowed, Nested};
ghost use Rattle.names.specs.code.Told.{node, Told};
ghost use Rattle.sweeps.specs.code.Weights.{heavier as heavier_of};

use base::{Reason, Refusal};
use names::Nodes;
use rules::Counts;
use walked::Row;

// The weight w of a flow's solid children, with one more: 0 none, 1 one that may be solid, 2 otherwise.
fn heavier(w: usize, child: &Row) -> usize
    ensures { result ≡ heavier_of w child.now.node.kind }
{
    if w == 0 && child.may_be_solid() { 1 } else { 2 }
}

// The weight w of children, with this one among them if it is solid.
fn borne(w: usize, child: &Row) -> usize
    ensures { result ≡ cond child.now.node.solid (heavier_of w child.now.node.kind) w }
{
    if child.node.solid {
        heavier(w, child)
    } else {
        w
    }
}

// The node i, if it is a flow whose children weigh w, which is not 1; else the one found so far.
fn blamed(row: &Row, i: usize, w: usize, later: Option<usize>) -> Option<usize>
    ensures { result ≡ cond (flowing row.now.node.kind) (cond (eqb w 1) later (Some i)) later }
{
    if row.is_flow() && w != 1 {
        return Some(i);
    }
    later
}

// Number 9: the first flow that has not one solid child that may be one. From the last node to the first, the weight of the solid children met is kept
// by their depth.
fn unsolid(nodes: &Nodes) -> Option<usize>
    ensures within { IfSome result (λ i. i < nodes.now.count) }
    ensures value { (t : Told nodes.now.lexer.now.text.now nodes.now.rows.now nodes.now.count) → fault solids_kept [] t.hs ≡ result }
{
    let mut weights = [0usize; 14];
    let mut first = None;
    for i in (0..nodes.count).rev() {
        let row = nodes.row(i);
        let depth = row.level();
        first = blamed(&row, i, weights[depth + 1], first);
        weights[depth + 1] = 0;
        weights[depth] = borne(weights[depth], &row);
    }
    first
}

// A count as far as it matters: 769 stands for every number over 768.
fn cap(n: usize) -> usize
    ensures value { result ≡ capped n }
    ensures upper_bound { result ≤ 769 }
{
    n.min(769)
}

// The size of a replicator, else 1.
fn factor(row: &Row) -> usize
    ensures fits { result < 65536 }
    ensures value { result ≡ cond (copying row.now.node.kind) (size_of row.now.node.kind) 1 }
{
    if row.is_replicator() { row.size() } else { 1 }
}

// How many of the n copies of the node i are events, or resets of a loop over a flow: all or none.
fn happening(nodes: &Nodes, i: usize, n: usize) -> usize
    requires { i < nodes.now.count }
    ensures upper_bound { result ≤ n }
    ensures value { (t : Told nodes.now.lexer.now.text.now nodes.now.rows.now nodes.now.count) → result ≡ cond (eventful (node t.hs i) (drop (i + 1) t.hs)) n 0 }
{
    let row = nodes.row(i);
    let next = i + 1;
    if row.is_leaf() {
        return n;
    }
    if row.is_loop() && next < nodes.count && nodes.row(next).is_flow() {
        return n;
    }
    0
}

// Number 11 by the two counts.
fn limits(copies: usize, events: usize) -> Result<Counts, Refusal>
    ensures { result ≡ counted copies events }
{
    if 768 < copies || 512 < events {
        return Err(Reason::Count.at(0));
    }
    Ok(Counts { copies, events })
}

// Whether the node is a flow whose sw is 0.
fn is_weak(row: &Row) -> bool
    ensures { result ≡ (flowing row.now.node.kind && not row.now.node.strong) }
{
    row.is_flow() && !row.node.strong
}

// Numbers 10 and 11, or the counts: the first flow whose sw is 0 ends the count. How many copies a node has is kept by its depth.
fn counts(nodes: &Nodes) -> Result<Counts, Refusal>
    ensures { (t : Told nodes.now.lexer.now.text.now nodes.now.rows.now nodes.now.count) → result ≡ refuse Weak (keyword_at nodes.now.lexer.now.text.now) (fault strongs_kept [] t.hs) (counted (capped (total any_node [] t.hs)) (capped (total eventful [] t.hs))) }
{
    let mut around = [1usize; 14];
    let mut copies = 0;
    let mut events = 0;
    for i in 0..nodes.count {
        let row = nodes.row(i);
        if is_weak(&row) {
            return Err(Reason::Weak.at(row.place()));
        }
        let depth = row.level();
        let n = around[depth];
        copies = cap(copies + n);
        events = cap(events + happening(nodes, i, n));
        around[depth + 1] = cap(n * factor(&row));
    }
    limits(copies, events)
}

// Numbers 7 to 11 in this order, each over the whole text, by the rows of its nodes: the first refusal, or how many node copies and events there are.
pub fn verdict(nodes: &Nodes) -> Result<Counts, Refusal>
    ensures { (hs : List TextNode) → length hs ≡ nodes.now.count → Rowed nodes.now.lexer.now.text.now nodes.now.rows.now 0 hs → Nested 0 hs → result ≡ verdict_of nodes.now.lexer.now.text.now hs }
{
    if let Some(i) = nodes.twice() {
        return Err(Reason::Name.at(nodes.row(i).name()));
    }
    if let Some(i) = nodes.unlisted() {
        return Err(Reason::Parameter.at(nodes.row(i).place()));
    }
    if let Some(i) = unsolid(nodes) {
        return Err(Reason::Solid.at(nodes.row(i).place()));
    }
    counts(nodes)
}
