#![tactic(auto)]

ghost use Rattle.std.specs.Prelude.{◌≡◌, ℕ, ◌+◌, ◌-◌, ◌<◌, ◌%◌, ◌^◌};
ghost use Rattle.base.specs.Fill.{fill};
ghost use Rattle.record.specs.Bits.{bit_at, change, set_bit, clear_bit, clear_bits, set_past};
ghost use Rattle.record.specs.Bytes.{words_of, bytes_of};
ghost use Rattle.record.specs.Blank.{blank_record};

// The control bits of a record, and its bytes in C.
const BITS: usize = 512;

pub const BYTES: usize = 64;

// The run record: a control bit for each event, bit 0 the top bit of the first word. Laid out as in C, so that a caller outside can lend one.
#[repr(C)]
#[derive(Clone, Copy)]
pub struct Record {
    pub bits: [u64; 8],
}

#[tactic(auto, unfolding(crate::specs::Blank::blank_record))]
pub fn blank() -> Record
    ensures { result ≡ blank_record }
{
    Record { bits: [0; 8] }
}

// Whether a control bit is set; there is none from 512 on.
#[tactic(auto, unfolding(crate::specs::Bits::bit_at))]
pub fn bit(bits: &[u64; 8], e: usize) -> bool
    ensures { result ≡ bit_at bits.now e }
{
    if BITS <= e {
        return false;
    }
    let down = 63 - e % 64;
    (bits[e / 64] >> down) % 2 == 1
}

// The words with a change at one bit: `f` takes the word that holds it, and the number whose only bit it is. No bit from 512 on changes anything.
fn change<F: Fn(u64, u64) -> u64>(bits: [u64; 8], e: usize, f: F) -> [u64; 8]
    requires { F.IsAlwaysCallable f }
    ensures { (by : ℕ → ℕ → ℕ) → ((w m r : ℕ) → F.post f w m r → r ≡ by w m) → result ≡ change by bits e }
{
    let mut b = bits;
    if e < BITS {
        b[e / 64] = f(b[e / 64], 1 << (63 - e % 64));
    }
    b
}

// The words with one bit set.
pub fn set(bits: [u64; 8], e: usize) -> [u64; 8]
    ensures { result ≡ set_bit bits e }
{
    change(bits, e, |word, mask| word | mask)
}

fn clear_bit(bits: [u64; 8], e: usize) -> [u64; 8]
    ensures { result ≡ clear_bit bits e }
{
    change(bits, e, |word, mask| (word | mask) ^ mask)
}

// The words with `count` bits cleared, from `first` on.
pub fn clear(bits: [u64; 8], first: usize, count: usize) -> [u64; 8]
    ensures { result ≡ clear_bits bits first count }
{
    let mut b = bits;
    for e in first..first.saturating_add(count).min(BITS) {
        let c = clear_bit(b, e);
        b = c;
    }
    b
}

// The bits of a word, whose top bit is bit `start` of the record, that are at or past `first`.
fn past(word: u64, start: usize, first: usize) -> u64
    requires { start < 512 }
    ensures { (result ≡ word % 2 ^ (start + 64 - first)) × (word < 2 ^ 64) }
{
    if first <= start {
        return word;
    }
    let before = first - start;
    if 64 <= before {
        return 0;
    }
    word % (1u64 << (64 - before))
}

// Whether a bit at or past `first` is set.
pub fn set_past(bits: &[u64; 8], first: usize) -> bool
    ensures { result ≡ set_past bits.now first }
{
    for (i, word) in bits.iter().enumerate() {
        if past(*word, 64 * i, first) != 0 {
            return true;
        }
    }
    false
}

// The words of a record's bytes; bytes that are not there count as zero.
pub fn load(bytes: &[u8]) -> [u64; 8]
    ensures { result ≡ words_of bytes.now }
{
    std::array::from_fn(|i| base::number::<8>(bytes, 8 * i) as u64)
}

// A record's 64 bytes over the front of `out`, as far as it goes.
pub fn store(out: &mut [u8], bits: [u64; 8])
    ensures { out.new ≡ fill out.old (bytes_of bits) }
{
    for i in 0..BYTES {
        let k = 56 - i % 8 * 8;
        base::put(out, i, ((bits[i / 8] >> k) % 256) as u8);
    }
}
