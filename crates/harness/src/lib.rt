#![tactic(auto)]
// What the Rust tests and the benchmarks call: numbers and lent bytes only.

ghost use Rattle.std.specs.Prelude.{◌≡◌, length};
ghost use Rattle.base.specs.Fill.{fill};
ghost use Rattle.reading.specs.Answers.{read_of};
ghost use Rattle.reading.specs.Reports.{report as read_report};
ghost use Rattle.printer.specs.Prints.{print_of, left_by};
ghost use Rattle.printer.specs.Reports.{report as print_report};
ghost use Rattle.table.specs.Reports.{report as step_report};
ghost use Rattle.inplace.specs.Updates.{answer_of, left_of};
ghost use Rattle.events.specs.Listing.{Listed};
ghost use Rattle.packing.specs.Packed.{packed};
ghost use Rattle.packing.specs.Nodes.{node_values, place_values};
ghost use Rattle.harness.specs.Nodes.{found_at, report as found_report};
ghost use Rattle.harness.specs.Calls.{Translates, WritesEvent, Labels, Names};

use base::Refusal;
use diagram::Node;
use record::Record;

#[unsafe(no_mangle)]
pub extern "C" fn adl_test_read(text: &[u8]) -> u64
    ensures { result ≡ packed 10 (read_report (read_of text.now)) }
{
    packing::read_number(reader::read(text))
}

#[unsafe(no_mangle)]
pub extern "C" fn adl_test_print(text: &[u8], out: &mut [u8]) -> u64
    ensures value { result ≡ packed 32 (print_report (print_of text.now out.old)) }
    ensures out_after { out.new ≡ left_by text.now out.old (print_of text.now out.old) }
{
    packing::written_number(printer::print(text, out))
}

#[unsafe(no_mangle)]
pub extern "C" fn adl_test_translate(text: &[u8], out: &mut [u8]) -> u64
    ensures { Translates text.now out.old result out.new }
{
    packing::written_number(translator::translate(text, out))
}

#[unsafe(no_mangle)]
pub extern "C" fn adl_test_eventb(text: &[u8], event: u64, out: &mut [u8]) -> u64
    ensures { WritesEvent text.now event out.old result out.new }
{
    packing::written_number(machines::eventb::event(text, event, out))
}

// Bytes over the front of `out`, as far as it goes; answers how many there are. One by one, so that the archive wants no copying from outside.
fn copy(bytes: &[u8], out: &mut [u8]) -> u64
    ensures value { result ≡ length bytes.now }
    ensures out_after { out.new ≡ fill out.old bytes.now }
{
    for (i, b) in bytes.iter().enumerate() {
        base::put(out, i, *b);
    }
    bytes.len() as u64
}

#[unsafe(no_mangle)]
pub extern "C" fn adl_test_list(text: &[u8], out: &mut [u8; 32768]) -> u64
    ensures { Listed text.now out.old result out.new }
{
    events::list(text, out) as u64
}

// The bytes of the name, over the front of `out` as far as it goes; none where refused.
#[unsafe(no_mangle)]
pub extern "C" fn adl_test_name(text: &[u8], event: u64, out: &mut [u8]) -> u64
    ensures { Names text.entry event out.old result out.new }
{
    copy(events::name(text, event), out)
}

#[unsafe(no_mangle)]
pub extern "C" fn adl_test_values(text: &[u8], event: u64) -> u64
    ensures { Labels text.now event result }
{
    packing::label_number(events::values(text, event))
}

// The node with an index, in the order of the text; none past the last one, which is told as number 255.
fn find(text: &[u8], index: u64) -> Result<Option<Node>, Refusal>
    ensures { result ≡ found_at (read_of text.now) index }
{
    let d = reader::read(text)?;
    if d.count as u64 <= index {
        return Ok(None);
    }
    Ok(Some(d.nodes[index as usize]))
}

// A node of a text, by its index.
#[unsafe(no_mangle)]
pub extern "C" fn adl_test_node(text: &[u8], index: u64) -> u64
    ensures { result ≡ packed 6 (found_report node_values (found_at (read_of text.now) index)) }
{
    match find(text, index) {
        Ok(Some(node)) => packing::node_number(node),
        Ok(None) => packing::refused(255, 0),
        Err(why) => packing::refusal(why),
    }
}

// The places of a node of a text, by its index.
#[unsafe(no_mangle)]
pub extern "C" fn adl_test_place(text: &[u8], index: u64) -> u64
    ensures { result ≡ packed 16 (found_report place_values (found_at (read_of text.now) index)) }
{
    match find(text, index) {
        Ok(Some(node)) => packing::place_number(node),
        Ok(None) => packing::refused(255, 0),
        Err(why) => packing::refusal(why),
    }
}

fn step_number(answer: Result<(), Refusal>) -> u64
    ensures { result ≡ packed 32 (step_report answer) }
{
    match answer {
        Ok(()) => 0,
        Err(why) => packing::refusal(why),
    }
}

// The thin call: an event on a record that the caller lends.
#[unsafe(no_mangle)]
pub extern "C" fn adl_test_update(table: &[u8], lent: &mut Record, event: u64) -> u64
    ensures value { result ≡ packed 32 (step_report (answer_of table.now lent.old event)) }
    ensures lent_after { lent.new ≡ left_of table.now lent.old event }
{
    step_number(inplace::step(table, lent, event))
}
