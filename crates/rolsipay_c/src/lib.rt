// The delivered calls as other languages link them, under their names in C: each hands on to the call of its name in `rolsipay`, and promises what that
// promises.
#![tactic(auto)]

ghost use Rattle.std.specs.Prelude.{◌≡◌, length};
ghost use Rattle.table.specs.Reading.{verdict, head_after};
ghost use Rattle.table.specs.Lent.{row_after};
ghost use Rattle.model.specs.declared.Call.TheVariants.{Release, Report, End};
ghost use Rattle.rolsipay.specs.Calling.{called};
ghost use Rattle.rolsipay.specs.Face.{ruling_of, reply_from};
ghost use Rattle.rolsipay.specs.Reading.{answer_of};

use rolsipay::{Leaf, Reply, Ruling, State};
use table::Head;

// `read` for other languages.
#[unsafe(no_mangle)]
pub extern "C" fn rolsipay_read(text: &[u8], row: &mut [Leaf], head: &mut Head) -> Ruling
    ensures { (result ≡ ruling_of (answer_of (verdict (length row.old) text.now)))
        × (row.new ≡ row_after (verdict (length row.old) text.now) row.old)
        × (head.new ≡ head_after (verdict (length row.old) text.now) head.old) }
{
    rolsipay::rolsipay_read(text, row, head)
}

// `release` for other languages.
#[unsafe(no_mangle)]
pub extern "C" fn rolsipay_release(row: &[Leaf], head: &Head, state: &mut State) -> Reply
    ensures { (result ≡ reply_from (called row.now head.now state.old Release).answer)
        × (state.new ≡ (called row.now head.now state.old Release).state) }
{
    rolsipay::rolsipay_release(row, head, state)
}

// `report` for other languages.
#[unsafe(no_mangle)]
pub extern "C" fn rolsipay_report(
    row: &[Leaf],
    head: &Head,
    state: &mut State,
    point: u64,
    reading: u64,
) -> Reply
    ensures { (result ≡ reply_from (called row.now head.now state.old (Report point reading)).answer)
        × (state.new ≡ (called row.now head.now state.old (Report point reading)).state) }
{
    rolsipay::rolsipay_report(row, head, state, point, reading)
}

// `end` for other languages.
#[unsafe(no_mangle)]
pub extern "C" fn rolsipay_end(row: &[Leaf], head: &Head, state: &mut State, reading: u64) -> Reply
    ensures { (result ≡ reply_from (called row.now head.now state.old (End reading)).answer)
        × (state.new ≡ (called row.now head.now state.old (End reading)).state) }
{
    rolsipay::rolsipay_end(row, head, state, reading)
}
