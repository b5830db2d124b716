#![tactic(auto)]

ghost use Rattle.std.specs.Prelude.{◌≡◌, false, [], ◌∷◌, ℕ, suc, ◌<◌, ◌≤◌, length, Some, IfOk, IfErr};
ghost use Rattle.base.specs.declared.Reason.TheVariants.{Token, Text};
ghost use Rattle.base.specs.Refusals.{refusal};
ghost use Rattle.tokens.specs.Token.{key, opening, closing as closing_sign, colon};
ghost use Rattle.tokens.specs.Kinds.{shown_sign, shown_key, shown, number_of};
ghost use Rattle.grammar.specs.Machine.{sign as sign_of, named, number, params, counts};
ghost use Rattle.grammar.specs.Places.{place_of};
ghost use Rattle.walked.specs.Walk.{row_at, change, marked, begun_kind};
ghost use Rattle.walked.specs.code.Readers.{Closing, Reads, Fills, Marks, Begins};
ghost use Rattle.heads.specs.code.Seen.{Seen};

use base::{Reason, Refusal};
use diagram::Kind;
use grammar::Place;
use lexer::Lexer;
use tokens::{Keyword, Lexeme, Sign};
use walked::{Position, Row};

// What the lines of the thesis's Figure 5.2 have in parentheses, and a node's keyword. The lines themselves are read in `walk`.

// The kind of the node that a keyword begins; a replicator has no size yet.
fn kind(keyword: Keyword) -> Kind
    ensures { result ≡ begun_kind (key (shown_key keyword)) }
{
    match keyword {
        Keyword::Flow => Kind::Flow,
        Keyword::Leaf => Kind::Leaf,
        Keyword::And => Kind::And,
        Keyword::Or => Kind::Or,
        Keyword::Xor => Kind::Xor,
        Keyword::All => Kind::All(0),
        Keyword::Some => Kind::Some(0),
        Keyword::One => Kind::One(0),
        Keyword::Loop => Kind::Loop,
    }
}

// The row n. Past the last row there is none.
fn row(rows: &[Row; 257], n: usize) -> Row
    ensures { result ≡ row_at rows.now n }
{
    base::at(rows, n, Row::blank())
}

// The solid mark of the node i. Past the last row there is none.
fn mark(rows: &mut [Row; 257], i: usize, solid: bool)
    ensures { rows.new ≡ change rows.old (suc i) (marked solid) }
{
    if i < 256 {
        let row = row(rows, i + 1).marked(solid);
        base::put(rows, i + 1, row);
    }
}

// The number that a numeral from `least` to `most` stands for; number 5 for another token.
fn value(t: Lexeme, least: u8, most: u8) -> Result<u8, Refusal>
    ensures ok { IfOk result (λ v. (number_of t.kind ≡ Some v) × (least ≤ v) × (v ≤ most)) }
    ensures err { IfErr result (λ r. (r ≡ refusal Token t.start) × (counts least most (shown t.kind) ≡ false)) }
{
    let Some(n) = t.numeral() else {
        return Err(Reason::Token.at(t.start));
    };
    if n < least || most < n {
        return Err(Reason::Token.at(t.start));
    }
    Ok(n)
}

// What reads a text token by token. Each place in the text fits 16 bits.
#[derive(Drop)]
pub struct Parser<'a> {
    pub lexer: Lexer<'a>,
    ghost short: { length lexer.text.now < 65536 },
}

impl<'a> Parser<'a> {
    // Number 2 for a text of over `most` bytes, at that place.
    pub fn new(text: &'a [u8], most: u16) -> Result<Self, Refusal>
        ensures ok { IfOk result (λ r. (r.lexer.text.now ≡ text.now) × (length text.now ≤ most)) }
        ensures err { IfErr result (λ r. (r ≡ refusal Text most) × (most < length text.now)) }
    {
        if usize::from(most) < text.len() {
            return Err(Reason::Text.at(usize::from(most)));
        }
        Ok(Parser {
            lexer: Lexer::new(text),
        })
    }

    // The keyword of a node, for which so many depths are left, and the position past it: number 5 where none that may stand here comes next, number 6
    // where the node is too deep or too many; else its row is begun.
    pub fn node(
        &self,
        p: Position,
        place: Place,
        left: usize,
        rows: &mut [Row; 257],
    ) -> Result<(Keyword, Position), Refusal>
        ensures { Begins self.now.lexer.text.now (place_of place) left p.nodes p.at rows.old result rows.new }
    {
        let t = self.lexer.next(p.at);
        let Some(keyword) = t.keyword() else {
            return Err(Reason::Token.at(t.start));
        };
        if !place.allows(keyword) {
            return Err(Reason::Token.at(t.start));
        }
        if left == 0 || 256 <= p.nodes {
            return Err(Reason::Node.at(t.start));
        }
        let depth = 13usize.saturating_sub(left) as u16;
        base::put(
            rows,
            p.nodes + 1,
            Row::begun(kind(keyword), t.start as u16, depth),
        );
        let past = Position {
            at: t.end,
            nodes: p.nodes + 1,
        };
        Ok((keyword, past))
    }

    // One of the signs ( ) , : by its class: the place past it, or that of what stands there. No word is looked at.
    fn seen(&self, at: usize, want: Sign) -> Result<usize, usize>
        ensures { Seen self.now.lexer.text.now want at result }
    {
        let start = self.lexer.gap(at);
        if self.lexer.text.len() <= start {
            return Err(self.lexer.text.len());
        }
        if self.lexer.class(self.lexer.text[start]) != want.class() {
            return Err(start);
        }
        Ok(start + 1)
    }

    // One of the signs has to come next.
    pub fn sign(&self, p: Position, want: Sign) -> Result<Position, Refusal>
        ensures { Reads self.now.lexer.text.now (sign_of (shown_sign want) ∷ []) p.nodes p.at result }
    {
        match self.seen(p.at, want) {
            Ok(at) => Ok(Position { at, nodes: p.nodes }),
            Err(place) => Err(Reason::Token.at(place)),
        }
    }

    // Whether a `)` comes next: the place past it.
    pub fn closing(&self, at: usize) -> Option<usize>
        ensures { Closing self.now.lexer.text.now at result }
    {
        self.seen(at, Sign::Closing).ok()
    }

    // The name of the last node, or its par: its place, and the place past it.
    fn name(&self, p: Position, rows: &mut [Row; 257]) -> Result<Position, Refusal>
        ensures { Fills self.now.lexer.text.now (named ∷ []) p.nodes p.at rows.old result rows.new }
    {
        let t = self.lexer.next(p.at);
        if !t.is_name() {
            return Err(Reason::Token.at(t.start));
        }
        let row = row(rows, p.nodes).named(t.start as u16, t.end as u16);
        base::put(rows, p.nodes, row);
        Ok(Position {
            at: t.end,
            nodes: p.nodes,
        })
    }

    // `(` and a name.
    fn opened_name(&self, p: Position, rows: &mut [Row; 257]) -> Result<Position, Refusal>
        ensures { Fills self.now.lexer.text.now (sign_of opening ∷ named ∷ []) p.nodes p.at rows.old result rows.new }
    {
        let p = self.sign(p, Sign::Opening)?;
        self.name(p, rows)
    }

    // Figure 5.2, flow: the pars and the sw, each after a comma, and the `)`. What is no name after a comma has to be the sw.
    fn params(&self, p: Position, rows: &mut [Row; 257]) -> Result<Position, Refusal>
        ensures { Fills self.now.lexer.text.now (params ∷ []) p.nodes p.at rows.old result rows.new }
    {
        let mut at = p.at;
        loop {
            let comma = self.lexer.next(at);
            if !comma.is_sign(Sign::Comma) {
                return Err(Reason::Token.at(comma.start));
            }
            let t = self.lexer.next(comma.end);
            at = t.end;
            if !t.is_name() {
                let switch = value(t, 0, 1)?;
                let row = row(rows, p.nodes).switched(switch == 1);
                base::put(rows, p.nodes, row);
                return self.sign(Position { at, nodes: p.nodes }, Sign::Closing);
            }
        }
    }

    // Figure 5.2, flow: what stands between the keyword and the children, which is the name, the pars and the sw, and a `(`.
    pub fn flow_head(&self, p: Position, rows: &mut [Row; 257]) -> Result<Position, Refusal>
        ensures { Fills self.now.lexer.text.now (sign_of opening ∷ named ∷ params ∷ sign_of opening ∷ []) p.nodes p.at rows.old result rows.new }
    {
        let p = self.opened_name(p, rows)?;
        let p = self.params(p, rows)?;
        self.sign(p, Sign::Opening)
    }

    // Document 01's addition to the par of Figure 5.2, constructor: the size of the last node, from 1 to 16, and the `)`.
    fn size(&self, p: Position, rows: &mut [Row; 257]) -> Result<Position, Refusal>
        ensures { Fills self.now.lexer.text.now (number 1 16 ∷ sign_of closing_sign ∷ []) p.nodes p.at rows.old result rows.new }
    {
        let t = self.lexer.next(p.at);
        let size = value(t, 1, 16)?;
        let row = row(rows, p.nodes).sized(size);
        base::put(rows, p.nodes, row);
        self.sign(
            Position {
                at: t.end,
                nodes: p.nodes,
            },
            Sign::Closing,
        )
    }

    // Figure 5.2, constructor: what stands between all, some, one and the member, which is a par with its size.
    pub fn copies(&self, p: Position, rows: &mut [Row; 257]) -> Result<Position, Refusal>
        ensures { Fills self.now.lexer.text.now (sign_of opening ∷ named ∷ sign_of colon ∷ number 1 16 ∷ sign_of closing_sign ∷ []) p.nodes p.at rows.old result rows.new }
    {
        let p = self.opened_name(p, rows)?;
        let p = self.sign(p, Sign::Colon)?;
        self.size(p, rows)
    }

    // Figure 5.2, child and cons-child: what follows leaf, a name in parentheses.
    pub fn leaf(&self, p: Position, rows: &mut [Row; 257]) -> Result<Position, Refusal>
        ensures { Fills self.now.lexer.text.now (sign_of opening ∷ named ∷ sign_of closing_sign ∷ []) p.nodes p.at rows.old result rows.new }
    {
        let p = self.opened_name(p, rows)?;
        self.sign(p, Sign::Closing)
    }

    // Figure 5.2, flow: the ref of the child before which i nodes stand, `(0)` or `(1)`, which is its solid mark.
    pub fn reference(
        &self,
        p: Position,
        i: usize,
        rows: &mut [Row; 257],
    ) -> Result<Position, Refusal>
        ensures { Marks self.now.lexer.text.now i p.nodes p.at rows.old result rows.new }
    {
        let p = self.sign(p, Sign::Opening)?;
        let t = self.lexer.next(p.at);
        let solid = value(t, 0, 1)?;
        mark(rows, i, solid == 1);
        self.sign(
            Position {
                at: t.end,
                nodes: p.nodes,
            },
            Sign::Closing,
        )
    }
}
