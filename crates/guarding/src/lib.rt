#![tactic(auto, using(output::proofs::Buffers::put_all_append, crate::proofs::Labelled::line_text, crate::proofs::Labelled::no_lines), unfolding(output::specs::Buffer::put_all))]

ghost use Rattle.std.specs.Prelude.{◌≡◌, true, false, [], ◌∷◌, ◌+◌, ◌≤◌, ◌<◌, length};
ghost use Rattle.output.specs.Writes.{Writes};
ghost use Rattle.process.specs.Process.{Process, owns};
ghost use Rattle.postfix.specs.Postfix.{postfix};
ghost use Rattle.formulas.specs.Lines.{guard_lines};
ghost use Rattle.formulas.specs.Conditions.{complete_when, guarded};
ghost use Rattle.variables.specs.code.Spelled.{naming, over};
ghost use Rattle.guarding.specs.code.Asked.{label as label_of, second_asked, first_asked, cut_at, Fits, Wrote, Guarded};

use output::Writer;
use postfix::Code;
use variables::Spelling;

// The label of guard k.
fn label(k: usize, w: &mut Writer)
    ensures { Writes w.old w.new (label_of k) }
{
    w.bytes(b"@grd_");
    w.number(k);
    w.bytes(b" ");
}

// Guard k: the variables from event `from` on, and of so many after it, are FALSE.
fn idle_line(from: usize, after: usize, k: usize, spelling: &Spelling, w: &mut Writer)
    ensures { from + after < 512 → Writes w.old w.new (guard_lines (naming spelling.now) k (over false from after ∷ [])) }
{
    label(k, w);
    spelling.range(from, after, false, w);
    w.bytes(b"\n");
}

// Guard k: the process is complete, if that is not always so; answers the number of the next guard.
fn complete_line(
    codes: &[Code],
    from: usize,
    k: usize,
    spelling: &Spelling,
    w: &mut Writer,
) -> usize
    requires { k < 1024 }
    ensures { (p : Process) → codes.now ≡ postfix p → Fits p codes.now from → Wrote (naming spelling.now) k (guarded (complete_when p)) w.old w.new result }
{
    if conditions::lacks(codes, false) {
        return k;
    }
    label(k, w);
    conditions::write(codes, from, false, spelling, w);
    w.bytes(b"\n");
    k + 1
}

// What is asked of the second part where the event is in the first; answers the number of the next guard.
fn ask_second(
    code: Code,
    from: usize,
    after: usize,
    k: usize,
    spelling: &Spelling,
    w: &mut Writer,
) -> usize
    requires { k < 1024 }
    ensures { from + after < 512 → Wrote (naming spelling.now) k (second_asked code from after) w.old w.new result }
{
    match code {
        Code::Seq | Code::Xor => {
            idle_line(from, after, k, spelling, w);
            k + 1
        }
        _ => k,
    }
}

// What is asked of the first part where the event is not in it; answers the number of the next guard.
fn ask_first(
    code: Code,
    codes: &[Code],
    from: usize,
    k: usize,
    spelling: &Spelling,
    w: &mut Writer,
) -> usize
    requires { k < 1024 }
    ensures { (p : Process) → codes.now ≡ postfix p → Fits p codes.now from → Wrote (naming spelling.now) k (first_asked code p) w.old w.new result }
{
    match code {
        Code::Xor => {
            idle_line(from, parts::after(codes), k, spelling, w);
            k + 1
        }
        Code::Seq | Code::Rounds => complete_line(codes, from, k, spelling, w),
        _ => k,
    }
}

// Where the second part begins; a loop over a flow has none, and its body is the first.
fn cut(code: Code, inner: &[Code]) -> usize
    ensures { (result ≡ cut_at code inner.now) × (result ≤ length inner.now) }
{
    match code {
        Code::Rounds => inner.len(),
        _ => parts::second(inner),
    }
}

// The guards of event e, of a process whose first event is `from`, from number k on; answers the first event that it clears, e itself where it clears none.
pub fn write(
    codes: &[Code],
    from: usize,
    e: usize,
    k: usize,
    spelling: &Spelling,
    w: &mut Writer,
) -> usize
    ensures { (p : Process) → codes.now ≡ postfix p → Fits p codes.now from → owns p e ≡ true → k + length codes.now ≤ 1024 → Guarded (naming spelling.now) k p e w.old w.new result }
{
    let Some((last, inner)) = codes.split_last() else {
        return e;
    };
    if 511 < from || 1023 < k {
        return e;
    }
    let code = *last;
    match code {
        Code::Leaf => {
            idle_line(from, 0, k, spelling, w);
            e
        }
        Code::Again => e,
        _ => {
            let (first, second) = inner.split_at(cut(code, inner));
            let next = from + parts::events(first);
            if e < next {
                let more = ask_second(code, next, parts::after(second), k, spelling, w);
                return write(first, from, e, more, spelling, w);
            }
            let more = ask_first(code, first, from, k, spelling, w);
            if let Code::Rounds = code {
                return from;
            }
            write(second, next, e, more, spelling, w)
        }
    }
}
