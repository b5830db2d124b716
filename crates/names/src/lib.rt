#![tactic(auto)]

ghost use Rattle.std.specs.Prelude.{◌≡◌, true, not, List, [], ℕ, ◌+◌, ◌-◌, ◌*◌, ◌/◌, ◌%◌, ◌≤◌, ◌<◌, min, length, get_or, drop, reverse, IfSome};
ghost use Rattle.diagram.specs.Tree.{Name};
ghost use Rattle.diagram.specs.Names.{equal, same, new};
ghost use Rattle.tokens.specs.Words.{word_at};
ghost use Rattle.rules.specs.Kept.{fault, names_kept, around as around_node, parameters_kept};
ghost use Rattle.walked.specs.Rows.{row_of, past_word, Listed};
ghost use Rattle.names.specs.code.Told.{node, earlier, Told};
ghost use Rattle.names.specs.code.Marks.{mark_of, titled_at, unused_at, latest, Linked, Falling};
ghost use Rattle.names.specs.code.Pars.{pars_at, Around, ParNext, Again};

use lexer::Lexer;
use walked::Row;

// The nodes of a text, by the rows that the walk left.
#[derive(Drop)]
pub struct Nodes<'a> {
    pub lexer: &'a Lexer<'a>,
    pub rows: &'a [Row; 257],
    pub count: usize,
    ghost few: { count ≤ 256 },
    ghost whole: { length rows.now ≡ 257 },
}

impl<'a> Nodes<'a> {
    pub fn new(lexer: &'a Lexer<'a>, rows: &'a [Row; 257], count: usize) -> Self
        ensures text { result.lexer.now.text.now ≡ lexer.now.text.now }
        ensures rows { result.rows.now ≡ rows.now }
        ensures count { result.count ≡ min count 256 }
    {
        Nodes {
            lexer,
            rows,
            count: count.min(256),
        }
    }

    // The row of the node i; past the last one a row that is not used.
    pub fn row(&self, i: usize) -> Row
        ensures { result ≡ row_of self.now.rows.now i }
    {
        let rows = self.rows;
        if i < 256 { rows[i + 1] } else { Row::blank() }
    }

    // Whether one of the nodes linked from a number on has the name that starts at `at`.
    fn is_taken(&self, links: &[u16; 256], from: usize, at: usize) -> bool
        requires { (from ≤ 256) × Falling links.now }
        ensures { (i : ℕ) → Linked self.now.lexer.now.text.now self.now.rows.now links.now i → from ≡ latest self.now.lexer.now.text.now self.now.rows.now (mark_of (word_at self.now.lexer.now.text.now at)) i → result ≡ not (unused_at self.now.lexer.now.text.now self.now.rows.now (word_at self.now.lexer.now.text.now at) i) }
    {
        let mut j = from;
        while 0 < j {
            let k = j - 1;
            if lexer::same(self.lexer.text, at, self.row(k).name()) {
                return true;
            }
            j = usize::from(links[k]);
        }
        false
    }

    // Number 7: the first leaf or flow that has the name of an earlier one. Nodes whose names have the same mark are linked.
    pub fn twice(&self) -> Option<usize>
        ensures within { IfSome result (λ i. (i < self.now.count) × (titled_at self.now.rows.now i ≡ true)) }
        ensures value { (t : Told self.now.lexer.now.text.now self.now.rows.now self.now.count) → fault names_kept [] t.hs ≡ result }
    {
        let mut heads = [0u16; 512];
        let mut links = [0u16; 256];
        for i in 0..self.count {
            let row = self.row(i);
            if row.is_titled() {
                let s = mark(self.lexer.text, row.name(), row.end());
                let last = heads[s];
                if self.is_taken(&links, usize::from(last), row.name()) {
                    return Some(i);
                }
                links[i] = last;
                heads[s] = (i + 1) as u16;
            }
        }
        None
    }

    // Whether the par that starts at `at` is none of those around.
    fn is_fresh(&self, around: &[usize], at: usize) -> bool
        ensures { result ≡ new (word_at self.now.lexer.now.text.now at) (pars_at self.now.lexer.now.text.now self.now.rows.now around.now (length around.now)) }
    {
        for k in (0..around.len()).rev() {
            if lexer::same(self.lexer.text, at, self.row(around[k]).name()) {
                return false;
            }
        }
        true
    }

    // The place of the par that comes next in a list, after a comma; where there is none the sw comes next.
    fn next_par(&self, at: usize) -> Option<usize>
        ensures { ParNext self.now.lexer.now.text.now at result }
    {
        let comma = self.lexer.gap(at);
        if self.lexer.text.len() <= comma {
            return None;
        }
        let par = self.lexer.gap(comma + 1);
        if self.lexer.class(base::at(self.lexer.text, par, 0)) == lexer::LETTER {
            Some(par)
        } else {
            None
        }
    }

    // The end of the word that starts at `at`, if it is the par of the node k: the bytes of that par, whose end its row has, and then no byte of a word.
    fn par_again(&self, at: usize, k: usize) -> Option<usize>
        requires { at ≤ length self.now.lexer.now.text.now }
        ensures { Again self.now.lexer.now.text.now (row_of self.now.rows.now k) at result }
    {
        let text = self.lexer.text;
        let row = self.row(k);
        let start = row.name();
        let end = row.end();
        if text.len() < end || end < start || text.len() - at < end - start {
            return None;
        }
        let past = at + (end - start);
        if text[at..past] != text[start..end] {
            return None;
        }
        let class = self.lexer.class(base::at(text, past, 0));
        if class < lexer::LETTER || lexer::UNDERSCORE < class {
            Some(past)
        } else {
            None
        }
    }

    // Whether the flow whose name ends at `past` lists the pars around, outermost first.
    fn is_listed(&self, around: &[usize], past: usize) -> bool
        ensures { (at : ℕ) (ps ns : List Name) → past ≡ past_word self.now.lexer.now.text.now at → Listed self.now.lexer.now.text.now at ps → Around self.now.lexer.now.text.now self.now.rows.now around.now (length around.now) ns → result ≡ equal same (reverse ps) ns }
    {
        let mut at = past;
        for k in around {
            let Some(par) = self.next_par(at) else {
                return false;
            };
            let Some(end) = self.par_again(par, *k) else {
                return false;
            };
            at = end;
        }
        self.next_par(at).is_none()
    }

    // Rule 8 of the node i, by the replicators around it.
    fn keeps_parameters(&self, i: usize, around: &[usize]) -> bool
        ensures few { result ≡ true → length around.now ≤ 3 }
        ensures value { (t : Told self.now.lexer.now.text.now self.now.rows.now self.now.count) → i < self.now.count → Around self.now.lexer.now.text.now self.now.rows.now around.now (length around.now) (around_node (node t.hs i).depth (earlier t.hs i)) → result ≡ parameters_kept (earlier t.hs i) (node t.hs i) (drop (i + 1) t.hs) }
    {
        if 3 < around.len() {
            return false;
        }
        let row = self.row(i);
        if row.is_flow() {
            return self.is_listed(around, row.end());
        }
        if row.is_replicator() {
            return self.is_fresh(around, row.name());
        }
        true
    }

    // Number 8: the first node that breaks the rule. The replicators around are kept by their numbers, outermost first, and how many there are by depth.
    pub fn unlisted(&self) -> Option<usize>
        ensures within { IfSome result (λ i. i < self.now.count) }
        ensures value { (t : Told self.now.lexer.now.text.now self.now.rows.now self.now.count) → fault parameters_kept [] t.hs ≡ result }
    {
        let mut pars = [0usize; 4];
        let mut many = [0usize; 14];
        for i in 0..self.count {
            let row = self.row(i);
            let depth = row.level();
            let n = many[depth];
            if !self.keeps_parameters(i, &pars[..n]) {
                return Some(i);
            }
            pars[n] = i;
            many[depth + 1] = n + usize::from(row.is_replicator());
        }
        None
    }
}

// Of the n bytes from `at` on the one that stands k before their end, or the first.
fn from_end(text: &[u8], at: usize, n: usize, k: usize) -> usize
    requires { (at + n ≤ length text.now) × (0 < n) × (0 < k) }
    ensures { (result ≡ get_or text.now (at + (n - k)) 0) × (result < 256) }
{
    usize::from(text[at + n.saturating_sub(k)])
}

// The mark of the name that starts at a place, by the place past it: a few of its bytes and its length, below 512.
fn mark(text: &[u8], at: usize, end: usize) -> usize
    requires { end < 65536 }
    ensures upper_bound { result < 512 }
    ensures value { end ≡ past_word text.now at → result ≡ mark_of (word_at text.now at) }
{
    if end <= at || text.len() < end {
        return 0;
    }
    let n = end - at;
    let first = usize::from(text[at]);
    let middle = usize::from(text[at + n / 2]);
    let last = from_end(text, at, n, 1);
    let before = from_end(text, at, n, 2);
    let third = from_end(text, at, n, 3);
    (first * 101 + middle * 3 + (last + before * 11 + third * 121) + n) % 512
}
