#![tactic(auto)]

ghost use Rattle.std.specs.Prelude.{◌≡◌, List, ℕ, length};
ghost use Rattle.diagram.specs.TreeNodes.{TextNode};
ghost use Rattle.walked.specs.Rows.{Rowed};
ghost use Rattle.reading.specs.Nodes.{stored};
ghost use Rattle.reading.specs.Answers.{read_of};
ghost use Rattle.reader.specs.code.Stages.{turned_away, Walked};

use base::{Reason, Refusal};
use diagram::Diagram;
use heads::Parser;
use lexer::Lexer;
use names::Nodes;
use rules::Counts;
use walked::Row;

// The refusal of a text that the walk refuses: numbers 3 and 4 come first, over the whole text.
fn turned_away(lexer: &Lexer, refusal: Refusal) -> Refusal
    ensures { result ≡ turned_away lexer.now.text.now refusal }
{
    let foreign = lexer.foreign();
    if foreign < lexer.text.len() {
        return Reason::Byte.at(foreign);
    }
    let long = lexer.first_long();
    if long < lexer.text.len() {
        return Reason::Word.at(long);
    }
    refusal
}

// The nodes of the rows, with the counts.
fn store(nodes: &Nodes, counts: Counts) -> Diagram
    ensures { (text : List ℕ) (hs : List TextNode) → length hs ≡ nodes.now.count → Rowed text nodes.now.rows.now 0 hs → result ≡ stored text hs counts.copies counts.events }
{
    let mut diagram = diagram::empty();
    for i in 0..nodes.count {
        diagram.nodes[i] = nodes.row(i).node;
    }
    diagram.count = nodes.count;
    diagram.copies = counts.copies;
    diagram.events = counts.events;
    diagram
}

// Numbers 7 to 11, and the diagram, of a text that was walked along to its end. It is kept out of line, or the diagrams that are handed on would lie in
// the frame of `read`, one beside the other.
#[inline(never)]
fn judge(lexer: &Lexer, rows: &[Row; 257], count: usize) -> Result<Diagram, Refusal>
    ensures { Walked lexer.now.text.now count rows.now → result ≡ read_of lexer.now.text.now }
{
    let nodes = Nodes::new(lexer, rows, count);
    let counts = sweeps::verdict(&nodes)?;
    Ok(store(&nodes, counts))
}

// The diagram of a text, or the refusal: numbers 2 to 11, in this order over the whole text.
pub fn read(text: &[u8]) -> Result<Diagram, Refusal>
    ensures { result ≡ read_of text.now }
{
    let parser = Parser::new(text, 16384)?;
    let mut rows = [Row::blank(); 257];
    match walk::parse(&parser, &mut rows) {
        Ok(count) => judge(&parser.lexer, &rows, count),
        Err(refusal) => Err(turned_away(&parser.lexer, refusal)),
    }
}
