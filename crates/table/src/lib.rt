#![tactic(auto)]

ghost use Rattle.std.specs.Prelude.{◌≡◌, true, take, OnOk};
ghost use Rattle.layout.specs.Fields.{events, rows};
ghost use Rattle.layout.specs.Sound.{sound};
ghost use Rattle.layout.specs.Values.{values_of};
ghost use Rattle.table.specs.Steps.{check_of, admit_of, allowed_of, step_of, finished_of, offered, offer_of, offer_left};

use base::{Reason, Refusal};
use record::Record;

// A step's answer, and the record after it: where the answer is a refusal, the record before it.
#[derive(Clone, Copy)]
pub struct Stepped {
    pub answer: Result<(), Refusal>,
    pub after: Record,
}

// Whether a table is sound; else number 12.
#[tactic(auto, unfolding(crate::specs::Steps::check_of))]
pub fn check(table: &[u8]) -> Result<(), Refusal>
    ensures { result ≡ check_of table.now }
{
    if layout::sound(table) {
        return Ok(());
    }
    Err(Reason::Table.at(0))
}

// What every call but `check` looks at first, numbers 12 and 13; where there is neither, `values` has what every row says.
#[tactic(auto, unfolding(crate::specs::Steps::admit_of))]
fn admit(t: &[u8], bits: [u64; 8], values: &mut [bool; layout::ROWS]) -> Result<(), Refusal>
    ensures value { result ≡ admit_of t.now bits }
    ensures values_after { OnOk result (take (rows t.now) values.new ≡ values_of t.now bits) }
{
    if !layout::work_out(t, &bits, values) {
        return Err(Reason::Table.at(0));
    }
    if record::set_past(&bits, base::number::<2>(t, 0)) {
        return Err(Reason::Record.at(0));
    }
    Ok(())
}

// The event's record, where a step takes it: the table is sound, the record has no set bit at or past E, there is such an event and its guard row says yes.
fn allowed(table: &[u8], bits: [u64; 8], event: u64) -> Result<usize, Refusal>
    ensures { result ≡ allowed_of table.now bits event }
{
    let mut values = [false; layout::ROWS];
    admit(table, bits, &mut values)?;
    let e = event as usize;
    if base::number::<2>(table, 0) <= e {
        return Err(Reason::Event.at(0));
    }
    let w = base::number::<4>(table, 4 + 4 * e);
    let guard = w / layout::GUARD;
    if !values[guard] {
        return Err(Reason::Guard.at(0));
    }
    Ok(w)
}

// Takes an event: its bit is set and its run cleared; or leaves the record.
pub fn step(table: &[u8], before: Record, event: u64) -> Stepped
    ensures { result ≡ step_of table.now before event }
{
    match allowed(table, before.bits, event) {
        Ok(w) => {
            let set = record::set(before.bits, event as usize);
            let bits = record::clear(set, w / layout::RUN % layout::RUN, w % layout::RUN);
            Stepped {
                answer: Ok(()),
                after: Record { bits },
            }
        }
        Err(refusal) => Stepped {
            answer: Err(refusal),
            after: before,
        },
    }
}

// Whether the last row says yes, of a sound table and a record with no set bit at or past E.
#[tactic(auto, unfolding(crate::specs::Steps::finished_of))]
pub fn finished(table: &[u8], before: Record) -> Result<bool, Refusal>
    ensures { result ≡ finished_of table.now before }
{
    let mut values = [false; layout::ROWS];
    admit(table, before.bits, &mut values)?;
    let last = base::number::<2>(table, 2) - 1;
    Ok(values[last])
}

// The bits of the events that a step would take, from a sound table and its rows' values.
fn gather(t: &[u8], values: &[bool; layout::ROWS]) -> [u64; 8]
    requires { sound t.now ≡ true }
    ensures { result ≡ offered t.now (take (rows t.now) values.now) (events t.now) }
{
    let mut bits = [0u64; 8];
    for e in 0..base::number::<2>(t, 0) {
        let w = base::number::<4>(t, 4 + 4 * e);
        let guard = w / layout::GUARD;
        if values[guard] {
            let more = record::set(bits, e);
            bits = more;
        }
    }
    bits
}

// The bit of each event that a step would take, in 64 bytes; bytes past them stay. Number 1 for a buffer of under 64 bytes, before all others.
#[tactic(auto, unfolding(crate::specs::Steps::offer_of))]
pub fn offer(table: &[u8], before: Record, out: &mut [u8]) -> Result<(), Refusal>
    ensures value { result ≡ offer_of table.now before out.old }
    ensures out_after { out.new ≡ offer_left table.now before out.old (offer_of table.now before out.old) }
{
    if out.len() < record::BYTES {
        return Err(Reason::Buffer.at(0));
    }
    let mut values = [false; layout::ROWS];
    admit(table, before.bits, &mut values)?;
    record::store(out, gather(table, &values));
    Ok(())
}
