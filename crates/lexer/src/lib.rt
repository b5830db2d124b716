#![tactic(auto)]

ghost use Rattle.std.specs.Prelude.{◌≡◌, true, cond, ℕ, Bool, Some, None, position, ◌+◌, ◌-◌, ◌≤◌, ◌<◌, get_or, length, take, drop};
ghost use Rattle.diagram.specs.Names.{same as alike};
ghost use Rattle.tokens.specs.Classes.{between, class_of, within, worded as worded_byte, unbroken};
ghost use Rattle.tokens.specs.Remarks.{blanks};
ghost use Rattle.tokens.specs.Words.{front, word_at, keywords, every};
ghost use Rattle.tokens.specs.Token.{word_token, numeral_in};
ghost use Rattle.tokens.specs.Kinds.{kind, keyword_in};
ghost use Rattle.tokens.specs.Parts.{Word};
ghost use Rattle.tokens.specs.Spans.{width, spans_of};
ghost use Rattle.tokens.specs.Rest.{Next};
ghost use Rattle.tokens.specs.Scanned.{first_foreign, first_long};
ghost use Rattle.lexer.specs.First.{first_by};
ghost use Rattle.lexer.specs.Lexicon.{Lexicon};

use tokens::{Keyword, Lexeme, TokenKind};

// Document 01's "constant table of 256 class numbers", the class of each byte: 0 foreign, 1 to 4 the signs ( ) , : in this order, 5 letter, 6 digit,
// 7 underscore, 8 blank, 9 the start of a remark.
const CLASSES: [u8; 256] = [
    0, 0, 0, 0, 0, 0, 0, 0, 0, 0, 8, 0, 0, 0, 0, 0, 0, 0, 0, 0, 0, 0, 0, 0, 0, 0, 0, 0, 0, 0, 0, 0,
    8, 0, 0, 9, 0, 0, 0, 0, 1, 2, 0, 0, 3, 0, 0, 0, 6, 6, 6, 6, 6, 6, 6, 6, 6, 6, 4, 0, 0, 0, 0, 0,
    0, 5, 5, 5, 5, 5, 5, 5, 5, 5, 5, 5, 5, 5, 5, 5, 5, 5, 5, 5, 5, 5, 5, 5, 5, 5, 5, 0, 0, 0, 0, 7,
    0, 5, 5, 5, 5, 5, 5, 5, 5, 5, 5, 5, 5, 5, 5, 5, 5, 5, 5, 5, 5, 5, 5, 5, 5, 5, 5, 0, 0, 0, 0, 0,
    0, 0, 0, 0, 0, 0, 0, 0, 0, 0, 0, 0, 0, 0, 0, 0, 0, 0, 0, 0, 0, 0, 0, 0, 0, 0, 0, 0, 0, 0, 0, 0,
    0, 0, 0, 0, 0, 0, 0, 0, 0, 0, 0, 0, 0, 0, 0, 0, 0, 0, 0, 0, 0, 0, 0, 0, 0, 0, 0, 0, 0, 0, 0, 0,
    0, 0, 0, 0, 0, 0, 0, 0, 0, 0, 0, 0, 0, 0, 0, 0, 0, 0, 0, 0, 0, 0, 0, 0, 0, 0, 0, 0, 0, 0, 0, 0,
    0, 0, 0, 0, 0, 0, 0, 0, 0, 0, 0, 0, 0, 0, 0, 0, 0, 0, 0, 0, 0, 0, 0, 0, 0, 0, 0, 0, 0, 0, 0, 0,
];

// The classes of a byte that code asks for.
const FOREIGN: u8 = 0;

pub const LETTER: u8 = 5;

pub const UNDERSCORE: u8 = 7;

const BLANK: u8 = 8;

// Past the bytes from `at` on that pass a test.
fn past<F: Fn(u8) -> bool>(text: &[u8], at: usize, passes: F) -> usize
    requires { F.IsAlwaysCallable passes }
    ensures forward { at ≤ result }
    ensures run { (test : ℕ → Bool) → ((b : ℕ) (r : Bool) → b < 256 → F.post passes b r → r ≡ test b) → result ≡ at + front test (drop at text.now) }
{
    for i in at..text.len() {
        if !passes(text[i]) {
            return i;
        }
    }
    at.max(text.len())
}

// What reads a text: the text, and the table of classes. The table is made once for a text, since a constant table is put on the stack again at every use.
#[derive(Drop)]
pub struct Lexer<'a> {
    pub text: &'a [u8],
    classes: [u8; 256],
    ghost known: { Lexicon classes },
}

impl<'a> Lexer<'a> {
    pub fn new(text: &'a [u8]) -> Self
        ensures { result.text.now ≡ text.now }
    {
        Lexer {
            text,
            classes: CLASSES,
        }
    }

    pub fn class(&self, b: u8) -> u8
        ensures { result ≡ class_of b }
    {
        self.classes[usize::from(b)]
    }

    // Past the bytes from `at` on whose class is one of those from `low` to `high`.
    fn run(&self, at: usize, low: u8, high: u8) -> usize
        ensures { result ≡ at + front (within low high) (drop at self.now.text.now) }
    {
        past(self.text, at, |b| { (low..=high).contains(&self.class(b)) })
    }

    // Past the blanks and remarks from `at` on: what stands between tokens. A byte that a remark cannot hold ends the gap, and is found foreign there; byte
    // 10 is a blank again.
    pub fn gap(&self, at: usize) -> usize
        ensures { result ≡ at + blanks (drop at self.now.text.now) }
    {
        let mut i = self.run(at, BLANK, BLANK);
        while base::at(self.text, i, 0) == b'#' {
            let end = past(self.text, i + 1, |b| (32..=126).contains(&b));
            i = self.run(end, BLANK, BLANK);
        }
        i
    }

    // The end of the tokens that stand side by side from `at` on: where the next gap starts, or the text ends.
    pub fn run_end(&self, at: usize) -> usize
        ensures { result ≡ at + front unbroken (drop at self.now.text.now) }
    {
        self.run(at, FOREIGN, UNDERSCORE)
    }

    // The token at a place or after it. It has no kind at the text's end, and where it is a foreign byte.
    pub fn next(&self, at: usize) -> Lexeme
        ensures { Next self.now.text.now at result }
    {
        let start = self.gap(at);
        if self.text.len() <= start {
            return Lexeme {
                kind: None,
                start: self.text.len(),
                end: start,
            };
        }
        let class = self.class(self.text[start]);
        if class < LETTER {
            return Lexeme {
                kind: TokenKind::of_class(class),
                start,
                end: start + 1,
            };
        }
        let end = self.run(start + 1, LETTER, UNDERSCORE);
        Lexeme {
            kind: Some(word_kind(&self.text[start..end], class)),
            start,
            end,
        }
    }

    // The end of the token that starts at `at`: of a word, or past the one byte.
    fn token_end(&self, at: usize) -> usize
        requires { at < length self.now.text.now }
        ensures { result ≡ at + width (drop at self.now.text.now) }
    {
        self.run(at, LETTER, UNDERSCORE).max(at + 1)
    }

    // The place of the first token whose first byte and length pass a test, or the text's length.
    fn first<F: Fn(u8, usize) -> bool>(&self, passes: F) -> usize
        requires { F.IsAlwaysCallable passes }
        ensures { (test : ℕ → ℕ → Bool) → ((b n : ℕ) (r : Bool) → b < 256 → F.post passes b n r → r ≡ test b n) → result ≡ first_by test (spans_of self.now.text.now) (length self.now.text.now) }
    {
        let text = self.text;
        let mut place = self.gap(0);
        while place < text.len() {
            let end = self.token_end(place);
            if passes(text[place], end - place) {
                return place;
            }
            place = self.gap(end);
        }
        text.len()
    }

    // The place of the first foreign byte, or the text's length.
    pub fn foreign(&self) -> usize
        ensures { result ≡ first_foreign self.now.text.now }
    {
        self.first(|b, _| self.class(b) == FOREIGN)
    }

    // The place of the first token of over 24 bytes, or the text's length.
    pub fn first_long(&self) -> usize
        ensures { result ≡ first_long (spans_of self.now.text.now) (length self.now.text.now) }
    {
        self.first(|_, n| 24 < n)
    }
}

// The keywords of document 01, in its order.
const KEYWORDS: [&[u8]; 9] = [
    b"flow", b"leaf", b"and", b"or", b"xor", b"all", b"some", b"one", b"loop",
];

// Whether two words are the same, byte by byte: for some keywords `==` on slices is a call, for which the reading of every token would put registers aside.
fn equal(v: &[u8], w: &[u8]) -> bool
    ensures { result ≡ alike v.now w.now }
{
    if v.len() != w.len() {
        return false;
    }
    for i in 0..w.len() {
        if v[i] != w[i] {
            return false;
        }
    }
    true
}

// The place of a word among the keywords.
fn place(word: &[u8]) -> Option<usize>
    ensures { result ≡ position (alike word.now) keywords }
{
    KEYWORDS.iter().position(|k| equal(word, k))
}

// The keyword that a word is.
fn keyword(word: &[u8]) -> Option<Keyword>
    ensures { result ≡ keyword_in keywords word.now }
{
    Keyword::at(place(word)?)
}

// The number of a digit from `0` to `last`, which is `first` for `0`.
fn digit(b: u8, last: u8, first: u8) -> Option<u8>
    requires { (last < 58) × (first < 200) }
    ensures { result ≡ cond (between 48 last b) (Some (b - 48 + first)) None }
{
    if (b'0'..=last).contains(&b) {
        Some(b - b'0' + first)
    } else {
        None
    }
}

// The number of a numeral from 0 to 16 without leading zero.
fn numeral(word: &[u8]) -> Option<u8>
    ensures { result ≡ numeral_in word.now }
{
    match word {
        [b] => digit(*b, b'9', 0),
        [b'1', b] => digit(*b, b'6', 10),
        _ => None,
    }
}

// The kind of a word whose first byte has this class.
fn word_kind(word: &[u8], class: u8) -> TokenKind
    requires { (0 < length word.now) × (class ≡ class_of (get_or word.now 0 0)) }
    ensures { every worded_byte word.now ≡ true → result ≡ kind (word_token keywords word.now) }
{
    if class != LETTER {
        return match numeral(word) {
            Some(n) => TokenKind::Numeral(n),
            None => TokenKind::Other,
        };
    }
    match keyword(word) {
        Some(keyword) => TokenKind::Keyword(keyword),
        None if word.len() <= 24 => TokenKind::Name,
        None => TokenKind::Other,
    }
}

// Whether a byte is a letter, a digit or an underscore. A few comparisons, for who has no table.
fn worded(b: u8) -> bool
    ensures { result ≡ worded_byte b }
{
    b.is_ascii_alphanumeric() || b == b'_'
}

// The word that starts at `at`, as that very part of the text; an empty part where the text ends before it.
pub fn word(text: &[u8], at: usize) -> &[u8]
    ensures { Word text.entry at result }
{
    if text.len() < at {
        return &text[..0];
    }
    let end = past(text, at, worded);
    &text[at..end]
}

// The first byte of the word that starts at `at`; 0, which no word has, where none starts.
#[tactic(auto, using(tokens::proofs::WordAt::letter_none, tokens::proofs::WordAt::letter_some))]
fn letter(text: &[u8], at: usize) -> u8
    ensures { result ≡ get_or (word_at text.now at) 0 0 }
{
    let b = base::at(text, at, 0);
    if worded(b) { b } else { 0 }
}

// Whether the words that start at two places are the same, byte by byte up to the first that differs or stands in no word.
pub fn same(text: &[u8], a: usize, b: usize) -> bool
    ensures { result ≡ alike (word_at text.now a) (word_at text.now b) }
{
    let mut q = b;
    for p in a..text.len() {
        let x = text[p];
        if x != base::at(text, q, 0) {
            return letter(text, p) == letter(text, q);
        }
        if !worded(x) {
            return true;
        }
        q += 1;
    }
    letter(text, q) == 0
}
