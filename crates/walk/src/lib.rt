#![tactic(auto)]

ghost use Rattle.std.specs.Prelude.{◌≡◌, ◌<◌};
ghost use Rattle.tokens.specs.Kinds.{shown_key};
ghost use Rattle.grammar.specs.Machine.{root, member, child, flow_parts, group_parts, loop_parts, parts};
ghost use Rattle.walked.specs.Walk.{ending};
ghost use Rattle.walked.specs.code.Readers.{Fills, Opens, told};

use base::{Reason, Refusal};
use grammar::Place;
use heads::Parser;
use tokens::{Keyword, Sign};
use walked::{Position, Row};

// Figure 5.2 of the thesis has four lines: flow, child, cons-child and constructor. Each has its reader here, in the figure's order, and each reader tries
// what its line names in the line's order. By document 01 one flow stands where the figure has one or more, and a replicator's par has a size.
// The readers take the tokens straight from the text, and write the rows of the nodes as they go.

// Figure 5.2, flow, after the keyword: the name, the pars and the sw; one or more children, each with its ref, up to the `)`.
#[cycle(figure)]
fn flow(
    parser: &Parser,
    p: Position,
    depth: usize,
    rows: &mut [Row; 257],
) -> Result<Position, Refusal>
    ensures { Fills parser.now.lexer.text.now (flow_parts depth) p.nodes p.at rows.old result rows.new }
{
    let mut p = parser.flow_head(p, rows)?;
    loop {
        let i = p.nodes;
        p = read_child(parser, p, depth, rows)?;
        p = parser.reference(p, i, rows)?;
        if let Some(at) = parser.closing(p.at) {
            return Ok(Position { at, nodes: p.nodes });
        }
    }
}

// Figure 5.2, child: leaf, constructor, flow.
#[cycle(figure)]
fn read_child(
    parser: &Parser,
    p: Position,
    depth: usize,
    rows: &mut [Row; 257],
) -> Result<Position, Refusal>
    ensures { Opens parser.now.lexer.text.now child depth p.nodes p.at rows.old result rows.new }
{
    let (keyword, p) = parser.node(p, Place::Child, depth, rows)?;
    of_keyword(parser, p, keyword, depth - 1, rows)
}

// Figure 5.2, cons-child, which document 01 calls a member: leaf, flow.
#[cycle(figure)]
fn read_member(
    parser: &Parser,
    p: Position,
    depth: usize,
    rows: &mut [Row; 257],
) -> Result<Position, Refusal>
    ensures { Opens parser.now.lexer.text.now member depth p.nodes p.at rows.old result rows.new }
{
    let (keyword, p) = parser.node(p, Place::Member, depth, rows)?;
    of_keyword(parser, p, keyword, depth - 1, rows)
}

// Figure 5.2, constructor: and, or, xor over members; all, some, one with a par over a member; loop over a member. Leaf stands before it and flow after it, in the
// order of the line child; of cons-child they are all. It is made part of who calls it, so that its answer is not copied on the way.
#[cycle(figure)]
#[inline(always)]
fn of_keyword(
    parser: &Parser,
    p: Position,
    keyword: Keyword,
    depth: usize,
    rows: &mut [Row; 257],
) -> Result<Position, Refusal>
    ensures { Fills parser.now.lexer.text.now (parts (shown_key keyword) depth) p.nodes p.at rows.old result rows.new }
{
    match keyword {
        Keyword::Leaf => parser.leaf(p, rows),
        Keyword::And | Keyword::Or | Keyword::Xor => group(parser, p, depth, rows),
        Keyword::All | Keyword::Some | Keyword::One => {
            let p = parser.copies(p, rows)?;
            body(parser, p, depth, rows)
        }
        Keyword::Loop => body(parser, p, depth, rows),
        Keyword::Flow => flow(parser, p, depth, rows),
    }
}

// Figure 5.2, constructor, the first way: after and, or, xor two members, and others up to the `)`.
#[cycle(figure)]
fn group(
    parser: &Parser,
    p: Position,
    depth: usize,
    rows: &mut [Row; 257],
) -> Result<Position, Refusal>
    ensures { Fills parser.now.lexer.text.now (group_parts depth) p.nodes p.at rows.old result rows.new }
{
    let p = parser.sign(p, Sign::Opening)?;
    let mut p = read_member(parser, p, depth, rows)?;
    loop {
        p = read_member(parser, p, depth, rows)?;
        if let Some(at) = parser.closing(p.at) {
            return Ok(Position { at, nodes: p.nodes });
        }
    }
}

// Figure 5.2, constructor, the end of the second and the third way: one member in parentheses.
#[cycle(figure)]
fn body(
    parser: &Parser,
    p: Position,
    depth: usize,
    rows: &mut [Row; 257],
) -> Result<Position, Refusal>
    ensures { Fills parser.now.lexer.text.now (loop_parts depth) p.nodes p.at rows.old result rows.new }
{
    let p = parser.sign(p, Sign::Opening)?;
    let p = read_member(parser, p, depth, rows)?;
    parser.sign(p, Sign::Closing)
}

// Figure 5.2, flow, with the keyword: the root.
fn read_root(parser: &Parser, rows: &mut [Row; 257]) -> Result<Position, Refusal>
    ensures { Opens parser.now.lexer.text.now root 12 0 0 rows.old result rows.new }
{
    let start = Position { at: 0, nodes: 0 };
    let (keyword, p) = parser.node(start, Place::Root, 12, rows)?;
    of_keyword(parser, p, keyword, 11, rows)
}

// The text is one flow, and nothing stands after it: its nodes are written over the rows, from the second on, and counted.
pub fn parse(parser: &Parser, rows: &mut [Row; 257]) -> Result<usize, Refusal>
    ensures { ending parser.now.lexer.text.now rows.old ≡ told result rows.new }
{
    let p = read_root(parser, rows)?;
    let t = parser.lexer.next(p.at);
    if t.start < parser.lexer.text.len() {
        return Err(Reason::Token.at(t.start));
    }
    Ok(p.nodes)
}
