#![tactic(auto, using(output::proofs::Buffers::put_all_append), unfolding(output::specs::Buffer::put_all))]

ghost use Rattle.std.specs.Prelude.{◌≡◌, ◌+◌, ◌<◌};
ghost use Rattle.output.specs.Writes.{Writes};
ghost use Rattle.formulas.specs.Formulas.{is as is_of};
ghost use Rattle.formulas.specs.Lines.{truth as truth_of, formula};
ghost use Rattle.variables.specs.code.Spelled.{mark as mark_of, naming, connective as connective_of, lead as lead_of, over};

use output::Writer;

// Where the name of an event stands in the text, and whether it is a reset or a leaf.
#[derive(Clone, Copy, Debug, PartialEq, Eq)]
pub struct Variable {
    pub place: usize,
    pub reset: bool,
}

// What the variables of the first 32 events are called: the text, and where their names stand in it.
#[derive(Clone, Copy)]
pub struct Spelling<'a> {
    pub text: &'a [u8],
    pub variables: [Variable; 32],
}

// `r_` for a reset, and `v_`.
fn mark(reset: bool) -> &'static [u8]
    ensures { result.now ≡ mark_of reset }
{
    if reset { b"r_" } else { b"v_" }
}

// A value as it is written.
fn truth(value: bool) -> &'static [u8]
    ensures { result.now ≡ truth_of value }
{
    if value { b"TRUE" } else { b"FALSE" }
}

// Between two formulas: either of them, or both.
pub fn connective(either: bool) -> &'static [u8]
    ensures { result.now ≡ connective_of either }
{
    if either { b" or " } else { b" & " }
}

impl Spelling<'_> {
    // The variable of event n.
    #[tactic(auto, using(output::proofs::Buffers::put_all_append), unfolding(crate::specs::code::Spelled::spelled))]
    pub fn name(&self, n: usize, w: &mut Writer)
        ensures { Writes w.old w.new (naming self.now n) }
    {
        let none = Variable {
            place: 0,
            reset: false,
        };
        let variable = base::at(&self.variables, n, none);
        w.bytes(mark(variable.reset));
        w.bytes(lexer::word(self.text, variable.place));
    }

    // The variable of event n has a value.
    #[tactic(auto, using(output::proofs::Buffers::put_all_append, crate::proofs::Over::is_text), unfolding(output::specs::Buffer::put_all))]
    pub fn is(&self, n: usize, value: bool, w: &mut Writer)
        ensures { Writes w.old w.new (formula (naming self.now) (is_of n value)) }
    {
        self.name(n, w);
        w.bytes(b" = ");
        w.bytes(truth(value));
    }

    // A formula of two up to its second: the variable of event n has a value.
    fn lead(&self, n: usize, value: bool, w: &mut Writer)
        ensures { Writes w.old w.new (lead_of (naming self.now) n value) }
    {
        w.bytes(b"(");
        self.is(n, value, w);
        w.bytes(connective(value));
    }

    // Of the variables from event `from` on and of so many after it: some is TRUE, or each is FALSE. There are at most 512 events.
    #[tactic(auto, using(output::proofs::Buffers::put_all_append, crate::proofs::Over::over_one, crate::proofs::Over::over_more), unfolding(output::specs::Buffer::put_all))]
    pub fn range(&self, from: usize, after: usize, value: bool, w: &mut Writer)
        ensures { from + after < 512 → Writes w.old w.new (formula (naming self.now) (over value from after)) }
    {
        if after == 0 {
            return self.is(from, value, w);
        }
        if 511 < from {
            return;
        }
        self.lead(from, value, w);
        self.range(from + 1, after - 1, value, w);
        w.bytes(b")");
    }
}
