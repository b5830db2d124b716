#![tactic(auto)]

ghost use Rattle.std.specs.Prelude.{◌≡◌, ◌+◌, ◌-◌, ◌*◌, ◌≤◌, ◌<◌, [], ◌∷◌, length};
ghost use Rattle.base.specs.Packed.{put_word};
ghost use Rattle.layout.specs.Fields.{event_record};
ghost use Rattle.plan.specs.Pieces.{constants as constants_of, settling, settled_row, event_piece, again_piece, rounds_piece, pair_piece, some_piece};
ghost use Rattle.rows.specs.code.Words.{word};
ghost use Rattle.guards.specs.code.Rows.{base_of, Begins, Adds, Keeps};
ghost use Rattle.guards.specs.Table.{TableWritten};
ghost use Rattle.guards.specs.code.Passes.{Makes, stacked, top, rest, Pops, latest_piece, others, no_rows, event_count as event_count_of};
ghost use Rattle.guards.specs.code.Passes.{first_start, first_pass as first_pass_of, FirstEnds};
ghost use Rattle.guards.specs.code.Passes.{Guarded, second_start, second_pass as second_pass_of, SecondEnds, Passes};

use arrayvec::ArrayVec;
use plan::{Needs, PartRows};
use postfix::Code;
use rows::Row;

// A table that is being written: the lent bytes, how many events it has, and its next row.
#[derive(Drop)]
pub struct Table<'a> {
    pub out: &'a mut [u8],
    pub events: u16,
    pub next: u16,
}

impl<'a> Table<'a> {
    // No row yet.
    fn new(out: &'a mut [u8], events: u16) -> Table<'a>
        ensures { Begins out.entry events result }
    {
        Table {
            out,
            events,
            next: 0,
        }
    }

    // One row more; answers which it is.
    #[tactic(auto, unfolding(crate::specs::code::Rows::put_rows))]
    fn add(&mut self, row: Row) -> u16
        requires { self.old.next < 65535 }
        ensures value { result ≡ self.old.next }
        ensures added { Adds self.old self.new (word row ∷ []) }
    {
        let k = self.next;
        let at = 4 + 4 * usize::from(self.events) + 4 * usize::from(k);
        base::put_word(self.out, at, row.word());
        self.next = k + 1;
        k
    }

    // The row that says of m that it is complete or not begun: one more, if none says so yet.
    #[tactic(auto, unfolding(crate::specs::code::Rows::put_rows))]
    fn settled(&mut self, m: PartRows) -> u16
        requires { self.old.next < 65535 }
        ensures value { result ≡ settled_row self.old.next m }
        ensures added { Adds self.old self.new (settling m) }
    {
        match m.settled {
            Some(row) => row,
            None => self.add(Row::Either(m.done, m.idle)),
        }
    }

    // The three rows before all others, of which the third, row 2, says yes always.
    #[tactic(auto, unfolding(crate::specs::code::Rows::put_rows))]
    fn constants(&mut self)
        requires { self.old.next ≡ 0 }
        ensures { Adds self.old self.new constants_of }
    {
        self.add(Row::Bit(0));
        self.add(Row::Not(0));
        self.add(Row::Either(0, 1));
    }

    // The record of event e.
    fn record(&mut self, e: u16, guard: u16, first: u16, count: u16)
        ensures { Keeps self.old self.new (put_word self.old.out.now (4 + 4 * e) (event_record guard first count)) }
    {
        base::put_word(
            self.out,
            4 + 4 * usize::from(e),
            rows::record(guard, first, count),
        );
    }

    // E and R, before the event records and the rows; answers how many bytes the table has.
    fn finish(&mut self) -> usize
        ensures value { result ≡ base_of self.old.events + 4 * self.old.next }
        ensures finished { Keeps self.old self.new (put_word self.old.out.now 0 (self.old.events * 65536 + self.old.next)) }
    {
        let events = usize::from(self.events);
        let rows = usize::from(self.next);
        base::put_word(self.out, 0, events * 65536 + rows);
        4 + 4 * events + 4 * rows
    }
}

// What a part adds to its own parts besides rows: the rows that speak of it, and what the second pass needs.
#[derive(Clone, Copy)]
pub struct Added {
    pub part: PartRows,
    pub needs: Needs,
}

// Where the first pass ends: the next event, and the row that the whole is complete.
#[derive(Clone, Copy)]
pub struct Whole {
    pub event: u16,
    pub done: u16,
}

// A leaf, event e: complete if begun. Its guard needs the row that it is not begun.
#[tactic(auto, unfolding(crate::specs::code::Rows::put_rows))]
fn leaf(e: u16, table: &mut Table) -> Added
    requires { table.old.next < 12000 }
    ensures { Makes (event_piece table.old.next e) table.old table.new result }
{
    let begun = table.add(Row::Bit(e));
    let idle = table.add(Row::Not(begun));
    let part = PartRows {
        begun,
        idle,
        done: begun,
        settled: Some(2),
        first: e,
    };
    let needs = Needs {
        later: idle,
        earlier: 0,
    };
    Added { part, needs }
}

// A loop over a leaf: always complete.
#[tactic(auto, unfolding(crate::specs::code::Rows::put_rows))]
fn again(e: u16, table: &mut Table) -> Added
    requires { table.old.next < 12000 }
    ensures { Makes (again_piece table.old.next e) table.old table.new result }
{
    let one = leaf(e, table);
    Added {
        part: PartRows {
            done: 2,
            ..one.part
        },
        needs: Needs::default(),
    }
}

// A loop over a flow, of which the rows of m speak; e is its reset.
#[tactic(auto, unfolding(crate::specs::code::Rows::put_rows))]
fn rounds(e: u16, m: PartRows, table: &mut Table) -> Added
    requires { table.old.next < 12000 }
    ensures { Makes (rounds_piece table.old.next e m) table.old table.new result }
{
    let reset = table.add(Row::Bit(e));
    let begun = table.add(Row::Either(m.begun, reset));
    let idle = table.add(Row::Not(begun));
    let settled = table.settled(m);
    let part = PartRows {
        begun,
        idle,
        done: settled,
        settled: Some(settled),
        first: m.first,
    };
    let needs = Needs {
        later: m.done,
        earlier: m.first,
    };
    Added { part, needs }
}

// Two parts, p before q, complete by a row of its own, `done`; the later part needs row `later`.
#[tactic(auto, unfolding(crate::specs::code::Rows::put_rows))]
fn join_pair(p: PartRows, q: PartRows, done: Row, later: u16, table: &mut Table) -> Added
    requires { table.old.next < 12000 }
    ensures { Makes (pair_piece table.old.next p q (word done) later) table.old table.new result }
{
    let begun = table.add(Row::Either(p.begun, q.begun));
    let idle = table.add(Row::Not(begun));
    let done = table.add(done);
    let part = PartRows {
        begun,
        idle,
        done,
        settled: None,
        first: p.first,
    };
    let needs = Needs {
        later,
        earlier: q.idle,
    };
    Added { part, needs }
}

// Either part or both: begun, and each part complete or not begun.
#[tactic(auto, using(crate::proofs::RowsWritten::put_rows_append), unfolding(crate::specs::code::Rows::put_rows))]
fn join_some(p: PartRows, q: PartRows, table: &mut Table) -> Added
    requires { table.old.next < 12000 }
    ensures { Makes (some_piece table.old.next p q) table.old table.new result }
{
    let first = table.settled(p);
    let second = table.settled(q);
    let begun = table.add(Row::Either(p.begun, q.begun));
    let idle = table.add(Row::Not(begun));
    let settled = table.add(Row::Both(first, second));
    let done = table.add(Row::Both(begun, settled));
    let part = PartRows {
        begun,
        idle,
        done,
        settled: Some(settled),
        first: p.first,
    };
    Added {
        part,
        needs: Needs::default(),
    }
}

// The latest of a stack, taken; `none` where it is empty.
fn pop<T: Copy + Default, const N: usize>(stack: &mut ArrayVec<T, N>, none: T) -> T
    ensures taken { Pops stack.old.items stack.new.items none result }
    ensures few { length stack.new.items ≡ length stack.old.items - 1 }
{
    stack.pop().unwrap_or(none)
}

// The latest two parts, the earlier first, taken from the stack.
fn pop_two(parts: &mut ArrayVec<PartRows, 1024>) -> (PartRows, PartRows)
    ensures later { result.1 ≡ top no_rows (stacked parts.old.items) }
    ensures earlier { result.0 ≡ top no_rows (rest (stacked parts.old.items)) }
    ensures parts_after { stacked parts.new.items ≡ rest (rest (stacked parts.old.items)) }
    ensures few { length parts.new.items ≤ length parts.old.items }
{
    let q = pop(parts, PartRows::default());
    let p = pop(parts, PartRows::default());
    (p, q)
}

// What the part of a code adds, event e if it is one; its own parts are taken from the stack.
#[tactic(auto, unfolding(crate::specs::code::Passes::piece_of))]
fn add_part(op: Code, e: u16, parts: &mut ArrayVec<PartRows, 1024>, table: &mut Table) -> Added
    requires { table.old.next < 12000 }
    ensures made { Makes (latest_piece op table.old.next e (stacked parts.old.items)) table.old table.new result }
    ensures parts_after { stacked parts.new.items ≡ others op (stacked parts.old.items) }
    ensures few { length parts.new.items ≤ length parts.old.items }
{
    match op {
        Code::Leaf => leaf(e, table),
        Code::Again => again(e, table),
        Code::Rounds => {
            let m = pop(parts, PartRows::default());
            rounds(e, m, table)
        }
        Code::Seq | Code::And => {
            let (p, q) = pop_two(parts);
            join_pair(p, q, Row::Both(p.done, q.done), p.done, table)
        }
        Code::Or => {
            let (p, q) = pop_two(parts);
            join_some(p, q, table)
        }
        Code::Xor => {
            let (p, q) = pop_two(parts);
            join_pair(p, q, Row::Either(p.done, q.done), p.idle, table)
        }
    }
}

// How many events a code is: a leaf and a reset is one.
fn event_count(op: Code) -> u16
    ensures { (result ≡ event_count_of op) × (result ≤ 1) }
{
    match op {
        Code::Leaf | Code::Again | Code::Rounds => 1,
        Code::Seq | Code::And | Code::Or | Code::Xor => 0,
    }
}

// The first pass: the rows of each part.
fn first_pass(ops: &[Code], table: &mut Table, needs: &mut ArrayVec<Needs, 1024>) -> Whole
    requires { (length ops.now ≤ 1024) × (table.old.next ≡ 3) × (needs.old.items ≡ []) }
    ensures { FirstEnds (first_pass_of (base_of table.old.events) ops.now (first_start 3 table.old.out.now)) table.old table.new needs.new.items result }
{
    let mut parts = ArrayVec::new();
    let mut e = 0;
    for op in ops {
        let added = add_part(*op, e, &mut parts, table);
        parts.push(added.part);
        needs.push(added.needs);
        e += event_count(*op);
    }
    let whole = pop(&mut parts, PartRows::default());
    Whole {
        event: e,
        done: whole.done,
    }
}

// The guard of a code's part, whose event is the one before e, if it is one: its record and its rows, and the gates of its own parts over those of others. Answers
// the event that was taken, or e.
#[tactic(auto, unfolding(crate::specs::code::Rows::put_rows))]
fn guard(op: Code, e: u16, n: Needs, gates: &mut ArrayVec<u16, 1025>, table: &mut Table) -> u16
    requires { (table.old.next < 12000) × (length gates.old.items ≤ 1024) }
    ensures guarded { Guarded op e n gates.old.items gates.new.items table.old table.new result }
    ensures few { length gates.new.items ≤ length gates.old.items - 1 + 2 }
{
    let m = pop(gates, 0);
    let k = table.next;
    let before = e.saturating_sub(1);
    match op {
        Code::Leaf => {
            table.record(before, k, 0, 0);
            table.add(Row::Both(m, n.later));
            before
        }
        Code::Again => {
            table.record(before, m, 0, 0);
            before
        }
        Code::Rounds => {
            table.record(before, k, n.earlier, before.saturating_sub(n.earlier));
            table.add(Row::Both(m, n.later));
            gates.push(m);
            before
        }
        Code::Seq | Code::Xor => {
            let later = table.add(Row::Both(m, n.later));
            let earlier = table.add(Row::Both(m, n.earlier));
            gates.push(earlier);
            gates.push(later);
            e
        }
        Code::And | Code::Or => {
            gates.push(m);
            gates.push(m);
            e
        }
    }
}

// The second pass: the gate of each part, and the event records.
fn second_pass(ops: &[Code], event: u16, table: &mut Table, needs: &mut ArrayVec<Needs, 1024>)
    requires { (length ops.now ≤ 1024) × (table.old.next ≤ 3 + 6 * 1024) }
    ensures { SecondEnds (second_pass_of (base_of table.old.events) ops.now (second_start table.old.next event (stacked needs.old.items) table.old.out.now)) table.old table.new }
{
    let mut gates = ArrayVec::new();
    gates.push(2);
    let mut e = event;
    for op in ops.iter().rev().copied() {
        let n = pop(needs, Needs::default());
        e = guard(op, e, n, &mut gates, table);
    }
}

// The constant rows, the two passes, the row that says finished, E and R; answers how many bytes that is.
fn both_passes(ops: &[Code], events: u16, out: &mut [u8]) -> usize
    requires { length ops.now ≤ 1024 }
    ensures { Passes ops.now events out.old result out.new }
{
    let mut table = Table::new(out, events);
    table.constants();
    let mut needs = ArrayVec::new();
    let whole = first_pass(ops, &mut table, &mut needs);
    second_pass(ops, whole.event, &mut table, &mut needs);
    table.add(Row::Both(whole.done, whole.done));
    table.finish()
}

// The table of a process in postfix order that has so many events, over the front of `out`; answers how many bytes it has. Where there is no room nothing is
// written, and the answer is 0.
#[tactic(auto, using(crate::proofs::RoomTested::plan_left))]
pub fn write_table(ops: &[Code], events: usize, out: &mut [u8]) -> usize
    ensures { TableWritten ops.now events out.old result out.new }
{
    if ops.len() > 1024 || events > 512 || out.len() < 51204 {
        return 0;
    }
    both_passes(ops, events as u16, out)
}
