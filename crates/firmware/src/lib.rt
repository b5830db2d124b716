#![tactic(auto)]

ghost use Rattle.std.specs.Prelude.{◌≡◌, eqb, length};
ghost use Rattle.firmware.specs.Calls.{number, left_bytes, check_number, step_number, step_bytes, finished_number, offer_number, offer_bytes};

use base::Refusal;
use record::Record;

// Whether bytes are as many as a record has; else number 1.
fn is_record(bytes: &[u8]) -> bool
    ensures { result ≡ eqb (length bytes.now) 64 }
{
    bytes.len() == record::BYTES
}

// The number that stands for an answer.
fn number_of(answer: Result<(), Refusal>) -> u8
    ensures { result ≡ number answer }
{
    match answer {
        Ok(()) => 0,
        Err(refusal) => refusal.reason.number(),
    }
}

// What a step leaves of a record's bytes: those of the record after it where the event was taken, and else what was there.
fn leave(bytes: &mut [u8], answer: Result<(), Refusal>, bits: [u64; 8])
    ensures { bytes.new ≡ left_bytes bytes.old bits answer }
{
    if answer.is_ok() {
        record::store(bytes, bits);
    }
}

// 0 for a sound table, else 12.
pub fn adl_check(table: &[u8]) -> u8
    ensures { result ≡ check_number table.now }
{
    let answer = table::check(table);
    number_of(answer)
}

// 0 for an event that was taken: the record's 64 bytes are then those after it. A refusal leaves them.
#[tactic(auto, unfolding(crate::specs::Calls::step_number, crate::specs::Calls::step_bytes))]
pub fn adl_step(table: &[u8], bytes: &mut [u8], event: u64) -> u8
    ensures value { result ≡ step_number table.now bytes.old event }
    ensures bytes_after { bytes.new ≡ step_bytes table.now bytes.old event }
{
    if !is_record(bytes) {
        return 1;
    }
    let bits = record::load(bytes);
    let stepped = table::step(table, Record { bits }, event);
    leave(bytes, stepped.answer, stepped.after.bits);
    number_of(stepped.answer)
}

// 0 for an offer: 64 bytes are written then, and those past them stay. A refusal leaves all.
#[tactic(auto, unfolding(crate::specs::Calls::offer_number, crate::specs::Calls::offer_bytes))]
pub fn adl_offer(table: &[u8], bytes: &[u8], out: &mut [u8]) -> u8
    ensures value { result ≡ offer_number table.now bytes.now out.old }
    ensures out_after { out.new ≡ offer_bytes table.now bytes.now out.old }
{
    if !is_record(bytes) {
        return 1;
    }
    let bits = record::load(bytes);
    let answer = table::offer(table, Record { bits }, out);
    number_of(answer)
}

// 255 for a finished run, 0 for one that is not.
#[tactic(auto, unfolding(crate::specs::Calls::finished_number))]
pub fn adl_finished(table: &[u8], bytes: &[u8]) -> u8
    ensures { result ≡ finished_number table.now bytes.now }
{
    if !is_record(bytes) {
        return 1;
    }
    let bits = record::load(bytes);
    match table::finished(table, Record { bits }) {
        Ok(false) => 0,
        Ok(true) => 255,
        Err(refusal) => refusal.reason.number(),
    }
}
