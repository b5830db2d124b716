// The calls for C: each is `firmware`'s function of the same name, exported, and promises what that promises. A slice crosses as a pointer and
// a length; include/adl.h says who owns which bytes.
#![tactic(auto)]

ghost use Rattle.std.specs.Prelude.{◌≡◌};
ghost use Rattle.firmware.specs.Calls.{check_number, step_number, step_bytes, finished_number, offer_number, offer_bytes};

// 0 for a sound table, else 12.
#[unsafe(no_mangle)]
pub extern "C" fn adl_check(table: &[u8]) -> u8
    ensures { result ≡ check_number table.now }
{
    firmware::adl_check(table)
}

// 0 for an event that was taken: the record's 64 bytes are then those after it. A refusal leaves them.
#[unsafe(no_mangle)]
pub extern "C" fn adl_step(table: &[u8], bytes: &mut [u8], event: u64) -> u8
    ensures value { result ≡ step_number table.now bytes.old event }
    ensures bytes_after { bytes.new ≡ step_bytes table.now bytes.old event }
{
    firmware::adl_step(table, bytes, event)
}

// 0 for an offer: 64 bytes are written then, and those past them stay. A refusal leaves all.
#[unsafe(no_mangle)]
pub extern "C" fn adl_offer(table: &[u8], bytes: &[u8], out: &mut [u8]) -> u8
    ensures value { result ≡ offer_number table.now bytes.now out.old }
    ensures out_after { out.new ≡ offer_bytes table.now bytes.now out.old }
{
    firmware::adl_offer(table, bytes, out)
}

// 255 for a finished run, 0 for one that is not.
#[unsafe(no_mangle)]
pub extern "C" fn adl_finished(table: &[u8], bytes: &[u8]) -> u8
    ensures { result ≡ finished_number table.now bytes.now }
{
    firmware::adl_finished(table, bytes)
}
