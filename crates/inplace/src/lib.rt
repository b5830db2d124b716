#![tactic(auto)]

ghost use Rattle.std.specs.Prelude.{◌≡◌};
ghost use Rattle.inplace.specs.Updates.{answer_of, left_of};

use base::Refusal;
use record::Record;

// Takes an event on a record that the caller lends: the record becomes the one that the step returns, which is the same one where the event is refused.
pub fn step(table: &[u8], lent: &mut Record, event: u64) -> Result<(), Refusal>
    ensures value { result ≡ answer_of table.now lent.old event }
    ensures lent_after { lent.new ≡ left_of table.now lent.old event }
{
    let stepped = table::step(table, *lent, event);
    *lent = stepped.after;
    stepped.answer
}
