#![tactic(auto)]

ghost use Rattle.std.specs.Prelude.{◌≡◌, [], ◌∷◌, ◌+◌, ◌%◌, take};
ghost use Rattle.base.specs.Refusals.{number as number_of};
ghost use Rattle.output.specs.Buffer.{buffer, put, put_all};
ghost use Rattle.output.specs.Decimal.{digits as digits_of, decimal};
ghost use Rattle.output.specs.Lines.{two_numbers, refused_line};
ghost use Rattle.output.specs.Writes.{Writes, written};

use base::Refusal;

// Bytes written one after the other into a lent buffer, as far as it goes: the buffer, and how many are written.
#[derive(Drop)]
pub struct Writer<'a> {
    pub out: &'a mut [u8],
    pub at: usize,
}

impl<'a> Writer<'a> {
    // Nothing is written yet.
    pub fn new(out: &'a mut [u8]) -> Writer<'a>
        ensures same { result.out.ghost_name ≡ out.entry.ghost_name }
        ensures none { written result ≡ buffer 0 out.old }
    {
        Writer { out, at: 0 }
    }

    // One byte more, where there is room.
    #[tactic(auto, using(crate::proofs::Buffers::put_full, crate::proofs::Buffers::put_room), unfolding(crate::specs::Buffer::put_all))]
    pub fn byte(&mut self, b: u8)
        ensures { Writes self.old self.new (b ∷ []) }
    {
        if self.at < self.out.len() {
            self.out[self.at] = b;
            self.at += 1;
        }
    }

    // The bytes of `source`, one after the other.
    #[tactic(auto, using(crate::proofs::Buffers::put_all_next), unfolding(crate::specs::Buffer::put_all))]
    pub fn bytes(&mut self, source: &[u8])
        ensures { Writes self.old self.new source.now }
    {
        for b in source {
            self.byte(*b);
        }
    }

    // The last digit of a number.
    fn last(&mut self, v: usize)
        ensures { Writes self.old self.new ((48 + v % 10) ∷ []) }
    {
        self.byte(b'0' + (v % 10) as u8);
    }

    // The digits of a number, at most one more than `left`: those of its tenth, and the last.
    #[tactic(auto, using(crate::proofs::Decimals::digits_none, crate::proofs::Decimals::digits_few, crate::proofs::Decimals::digits_more, crate::proofs::Buffers::put_all_append))]
    fn digits(&mut self, v: usize, left: usize)
        ensures { Writes self.old self.new (digits_of left v) }
    {
        if v <= 9 {
            return self.last(v);
        }
        if left > 0 {
            self.digits(v / 10, left - 1);
        }
        self.last(v);
    }

    // A number in decimal.
    pub fn number(&mut self, v: usize)
        ensures { Writes self.old self.new (decimal v) }
    {
        self.digits(v, 19);
    }

    // A line of two numbers, each after some words.
    #[tactic(auto, using(crate::proofs::Buffers::put_all_append))]
    pub fn numbers(&mut self, words: &[u8], m: usize, between: &[u8], n: usize)
        ensures { Writes self.old self.new (two_numbers words.now m between.now n) }
    {
        self.bytes(words);
        self.number(m);
        self.bytes(between);
        self.number(n);
        self.bytes(b"\n");
    }

    // The bytes written so far.
    pub fn written(&self) -> &[u8]
        ensures { result.now ≡ take self.now.at self.now.out.now }
    {
        let n = self.at.min(self.out.len());
        &self.out[..n]
    }

    // `refused`, a number and a place.
    #[tactic(auto, unfolding(crate::specs::Lines::refused_line))]
    pub fn refused_as(&mut self, number: u8, place: usize)
        ensures { Writes self.old self.new (refused_line number place) }
    {
        self.numbers(b"refused ", usize::from(number), b" ", place);
    }

    // The line of a refusal.
    pub fn refused(&mut self, why: Refusal)
        ensures { Writes self.old self.new (refused_line (number_of why.reason) why.place) }
    {
        self.refused_as(why.reason.number(), why.place);
    }
}
