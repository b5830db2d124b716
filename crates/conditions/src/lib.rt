#![tactic(auto, using(output::proofs::Buffers::put_all_append), unfolding(output::specs::Buffer::put_all))]

ghost use Rattle.std.specs.Prelude.{◌≡◌, cond, [], ◌++◌, ◌+◌, ◌≤◌, ◌<◌, length};
ghost use Rattle.output.specs.Writes.{Writes};
ghost use Rattle.process.specs.Process.{Joint, Process};
ghost use Rattle.process.proofs.Numbered.{Numbered};
ghost use Rattle.postfix.specs.Postfix.{postfix, joint_code};
ghost use Rattle.variables.specs.code.Spelled.{naming};
ghost use Rattle.conditions.specs.code.Asked.{absent, wanted, of_parts as settled_parts, choosing as choosing_code, joint_lacks as joint_lacks_of, around as around_of, shape_of, Inside, up_to, from_on, opening, between as between_parts, closing, condition};

use output::Writer;
use postfix::Code;
use variables::Spelling;

// What stands around the condition on the parts of a joint: nothing; "or none begun"; only that a part has begun; that and the parts.
#[derive(Clone, Copy, Debug, PartialEq, Eq)]
pub enum Frame {
    Nothing,
    OrIdle,
    Begun,
    AndBegun,
}

// How the condition on a joint is put: where its second part begins, how many events the first part has and how many come after the first event of both, whether both
// parts have a condition and whether either is enough, and what stands around them.
#[derive(Clone, Copy, Debug, PartialEq, Eq)]
pub struct Shape {
    pub second: usize,
    pub first: usize,
    pub after: usize,
    pub pair: bool,
    pub either: bool,
    pub around: Frame,
}

// Whether the parts of a joint are asked to be settled; else they are asked to be complete.
fn of_parts(code: Code) -> bool
    ensures { result ≡ settled_parts code }
{
    matches!(code, Code::Or)
}

// Whether the condition on either part is enough.
fn choosing(code: Code) -> bool
    ensures { result ≡ choosing_code code }
{
    matches!(code, Code::Xor)
}

// Whether the condition on a joint always holds, where that on its first and that on its second part does.
fn joint_lacks(code: Code, settled: bool, a: bool, b: bool) -> bool
    ensures { result ≡ joint_lacks_of code settled a b }
{
    match code {
        Code::Xor => a | b,
        Code::Or => settled & (a & b),
        _ => a & b,
    }
}

// Whether the condition that a process is settled, or that it is complete, always holds.
pub fn lacks(codes: &[Code], settled: bool) -> bool
    ensures { (p : Process) → codes.now ≡ postfix p → result ≡ absent (wanted settled p) }
{
    let Some((last, inner)) = codes.split_last() else {
        return true;
    };
    let code = *last;
    match code {
        Code::Leaf => settled,
        Code::Again => true,
        Code::Rounds => lacks(inner, true),
        _ => {
            let (first, second) = inner.split_at(parts::second(inner));
            let asked = of_parts(code);
            let a = lacks(first, asked);
            let b = lacks(second, asked);
            joint_lacks(code, settled, a, b)
        }
    }
}

// What stands around the condition on the parts.
fn around(code: Code, settled: bool, lack: bool) -> Frame
    ensures { result ≡ around_of code settled lack }
{
    match code {
        Code::Or if settled => Frame::Nothing,
        Code::Or if lack => Frame::Begun,
        Code::Or => Frame::AndBegun,
        _ if settled => Frame::OrIdle,
        _ => Frame::Nothing,
    }
}

// The shape of the condition on a joint, of its code and those before it; of anything else nothing is said.
fn shaped(code: Code, inner: &[Code], settled: bool) -> Shape
    ensures value { (j : Joint) (p q : Process) → code ≡ joint_code j → inner.now ≡ postfix p ++ postfix q → result ≡ shape_of settled j p q }
    ensures inside { Inside inner.now result }
{
    let (first, second) = inner.split_at(parts::second(inner));
    let asked = of_parts(code);
    let a = lacks(first, asked);
    let b = lacks(second, asked);
    Shape {
        second: first.len(),
        first: parts::events(first),
        after: parts::after(inner),
        pair: !a & !b,
        either: choosing(code),
        around: around(code, settled, a & b),
    }
}

// Bytes, if they are there.
fn sign(there: bool, bytes: &[u8]) -> &[u8]
    ensures { result.now ≡ cond there bytes.now [] }
{
    if there { bytes } else { b"" }
}

impl Shape {
    // What stands around the condition on the parts, up to it.
    fn begin(self, from: usize, spelling: &Spelling, w: &mut Writer)
        ensures { from + self.after < 512 → Writes w.old w.new (up_to (naming spelling.now) self.around from self.after) }
    {
        match self.around {
            Frame::Nothing => (),
            Frame::OrIdle => w.bytes(b"("),
            Frame::Begun => spelling.range(from, self.after, true, w),
            Frame::AndBegun => {
                w.bytes(b"(");
                spelling.range(from, self.after, true, w);
                w.bytes(b" & ")
            }
        }
    }

    // What stands before the condition on the first part.
    fn open(self, from: usize, spelling: &Spelling, w: &mut Writer)
        ensures { from + self.after < 512 → Writes w.old w.new (opening (naming spelling.now) self from) }
    {
        self.begin(from, spelling, w);
        w.bytes(sign(self.pair, b"("));
    }

    // What stands between the conditions on the two parts.
    fn between(self) -> &'static [u8]
        ensures { result.now ≡ between_parts self }
    {
        sign(self.pair, variables::connective(self.either))
    }

    // What stands around the condition on the parts, from it on.
    fn finish(self, from: usize, spelling: &Spelling, w: &mut Writer)
        ensures { from + self.after < 512 → Writes w.old w.new (from_on (naming spelling.now) self.around from self.after) }
    {
        match self.around {
            Frame::Nothing | Frame::Begun => (),
            Frame::OrIdle => {
                w.bytes(b" or ");
                spelling.range(from, self.after, false, w);
                w.bytes(b")")
            }
            Frame::AndBegun => w.bytes(b")"),
        }
    }

    // What stands after the condition on the second part.
    fn close(self, from: usize, spelling: &Spelling, w: &mut Writer)
        ensures { from + self.after < 512 → Writes w.old w.new (closing (naming spelling.now) self from) }
    {
        w.bytes(sign(self.pair, b")"));
        self.finish(from, spelling, w);
    }
}

// The condition that a process is settled, or that it is complete; nothing where it always holds. The first event is number `from`, and there are at most 512.
pub fn write(codes: &[Code], from: usize, settled: bool, spelling: &Spelling, w: &mut Writer)
    ensures { (p : Process) → codes.now ≡ postfix p → Numbered p from → from + length codes.now ≤ 512 → Writes w.old w.new (condition (naming spelling.now) (wanted settled p)) }
{
    let Some((last, inner)) = codes.split_last() else {
        return;
    };
    if lacks(codes, settled) {
        return;
    }
    if 511 < from {
        return;
    }
    let code = *last;
    match code {
        Code::Leaf => spelling.is(from, true, w),
        Code::Rounds => write(inner, from, true, spelling, w),
        _ => {
            let s = shaped(code, inner, settled);
            let (first, second) = inner.split_at(s.second);
            let asked = of_parts(code);
            s.open(from, spelling, w);
            write(first, from, asked, spelling, w);
            w.bytes(s.between());
            write(second, from + s.first, asked, spelling, w);
            s.close(from, spelling, w)
        }
    }
}
