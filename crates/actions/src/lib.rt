#![tactic(auto, using(output::proofs::Buffers::put_all_append), unfolding(output::specs::Buffer::put_all))]

ghost use Rattle.std.specs.Prelude.{◌≡◌, true, ◌∷◌, ◌-◌, ◌≤◌};
ghost use Rattle.output.specs.Writes.{Writes};
ghost use Rattle.tokens.specs.Words.{word_at};
ghost use Rattle.formulas.specs.Lines.{action_lines};
ghost use Rattle.formulas.specs.Actions.{becomes};
ghost use Rattle.formulas.specs.Opening.{cleared_all, opening_lines};
ghost use Rattle.variables.specs.code.Spelled.{naming};
ghost use Rattle.actions.specs.code.Written.{numbered as numbered_by, head as head_of, tail as tail_of, line as line_of, lines as lines_of, declarations as declarations_of};

use output::Writer;
use variables::Spelling;

// The lines that name a variable: as one of the machine's, with its type, set TRUE, and set FALSE.
#[derive(Clone, Copy, Debug, PartialEq, Eq)]
enum Kind {
    Named,
    Typed,
    Set,
    Cleared,
}

// A label and its number.
fn numbered(label: &[u8], number: usize, w: &mut Writer)
    ensures { Writes w.old w.new (numbered_by label.now number) }
{
    w.bytes(label);
    w.number(number);
    w.bytes(b" ");
}

impl Kind {
    // What stands before the variable: a label and a number, or nothing.
    fn head(self, number: usize, w: &mut Writer)
        ensures { Writes w.old w.new (head_of self number) }
    {
        match self {
            Kind::Named => (),
            Kind::Typed => numbered(b"@inv_", number, w),
            Kind::Set | Kind::Cleared => numbered(b"@act_", number, w),
        }
    }

    // What stands after it.
    fn tail(self) -> &'static [u8]
        ensures { result.now ≡ tail_of self }
    {
        match self {
            Kind::Named => b"\n",
            Kind::Typed => b" : BOOL\n",
            Kind::Set => b" := TRUE\n",
            Kind::Cleared => b" := FALSE\n",
        }
    }

    // The line of event n's variable.
    fn line(self, number: usize, n: usize, spelling: &Spelling, w: &mut Writer)
        ensures { Writes w.old w.new (line_of (naming spelling.now) self number n) }
    {
        self.head(number, w);
        spelling.name(n, w);
        w.bytes(self.tail());
    }

    // The lines of the variables of the events from `from` up to `to`, from number k on.
    #[tactic(auto, using(output::proofs::Buffers::put_all_append, crate::proofs::ByKind::lines_none, crate::proofs::ByKind::lines_more), unfolding(output::specs::Buffer::put_all))]
    fn lines(self, k: usize, from: usize, to: usize, spelling: &Spelling, w: &mut Writer)
        requires { (to ≤ 512) × (k ≤ 2) × (from ≤ to) }
        ensures { Writes w.old w.new (lines_of (naming spelling.now) self k from (to - from)) }
    {
        for i in from..to {
            self.line(i - from + k, i, spelling, w);
        }
    }
}

// The actions of event e: its own variable, and then those of the events from `from` up to it, which it clears. There are at most 512 events.
#[tactic(auto, using(output::proofs::Buffers::put_all_append, crate::proofs::ByKind::event_actions), unfolding(output::specs::Buffer::put_all))]
pub fn write(e: usize, from: usize, spelling: &Spelling, w: &mut Writer)
    ensures { e ≤ 512 → from ≤ e → Writes w.old w.new (action_lines (naming spelling.now) 1 (becomes e true ∷ cleared_all from (e - from))) }
{
    if 512 < e || e < from {
        return;
    }
    Kind::Set.line(1, e, spelling, w);
    Kind::Cleared.lines(2, from, e, spelling, w);
}

// A machine's name, at its place in the text, its n variables and their types.
fn declarations(root: usize, n: usize, spelling: &Spelling, w: &mut Writer)
    requires { n ≤ 512 }
    ensures { Writes w.old w.new (declarations_of (naming spelling.now) (word_at spelling.now.text.now root) n) }
{
    w.bytes(b"machine ");
    w.bytes(lexer::word(spelling.text, root));
    w.bytes(b"\nvariables\n");
    Kind::Named.lines(0, 0, n, spelling, w);
    w.bytes(b"invariants\n");
    Kind::Typed.lines(1, 0, n, spelling, w);
}

// A machine up to its first event.
#[tactic(auto, using(output::proofs::Buffers::put_all_append, crate::proofs::ByKind::opened), unfolding(output::specs::Buffer::put_all))]
pub fn open(root: usize, n: usize, spelling: &Spelling, w: &mut Writer)
    ensures { n ≤ 512 → Writes w.old w.new (opening_lines (naming spelling.now) (word_at spelling.now.text.now root) n) }
{
    if 512 < n {
        return;
    }
    declarations(root, n, spelling, w);
    w.bytes(b"events\nevent INITIALISATION\nthen\n");
    Kind::Cleared.lines(1, 0, n, spelling, w);
    w.bytes(b"end\n");
}
