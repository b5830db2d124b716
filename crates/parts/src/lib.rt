#![tactic(auto)]
// Parts of a process in postfix order: the codes of a process are those of its parts and then its own.

ghost use Rattle.std.specs.Prelude.{◌≡◌, ◌-◌, ◌^◌, ◌≤◌, ◌<◌, length};
ghost use Rattle.parts.specs.code.Cuts.{wanted as wanted_before, is_event as is_event_code, second_begins, event_count};

use postfix::Code;

// How many parts are wanted before a code, where so many were wanted after it.
fn wanted(code: Code, n: usize) -> usize
    requires { (0 < n) × (n < 2 ^ 63) }
    ensures { result ≡ wanted_before code n }
{
    match code {
        Code::Leaf | Code::Again => n - 1,
        Code::Rounds => n,
        Code::Seq | Code::And | Code::Or | Code::Xor => n + 1,
    }
}

// Where the second of two parts begins: from the end, up to where one part is whole.
pub fn second(codes: &[Code]) -> usize
    ensures { (result ≡ second_begins codes.now) × (result ≤ length codes.now) }
{
    let mut n = 1;
    for i in (0..codes.len()).rev() {
        if n == 0 {
            return i + 1;
        }
        n = wanted(codes[i], n);
    }
    0
}

// Each leaf, loop over a leaf and reset is an event.
fn is_event(code: Code) -> bool
    ensures { result ≡ is_event_code code }
{
    matches!(code, Code::Leaf | Code::Again | Code::Rounds)
}

// How many events there are.
pub fn events(codes: &[Code]) -> usize
    ensures { (result ≡ event_count codes.now) × (result ≤ length codes.now) }
{
    codes.iter().filter(|code| is_event(**code)).count()
}

// How many events come after the first.
pub fn after(codes: &[Code]) -> usize
    ensures { (result ≡ event_count codes.now - 1) × (result ≤ length codes.now - 1) }
{
    events(codes).saturating_sub(1)
}
