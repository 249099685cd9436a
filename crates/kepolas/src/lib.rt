// The calls for C and Rust, on numbers and slices of bytes. A call returns the refusal's number, or 0 where it gives a count; the count, or
// the refusal's place, it writes to a number that the caller lends. The nine calls are written out, since
// `kepolas_c` exports each under its name.

#![tactic(auto)]

ghost use Rattle.std.specs.Prelude.{◌≡◌};
ghost use Rattle.reply.specs.Reply.{said};
ghost use Rattle.roll.specs.Promise.{RollChecked, RunPlace};
ghost use Rattle.rules.specs.Promise.{ContentChecked};
ghost use Rattle.text.specs.Print.{TablePrinted};
ghost use Rattle.text.specs.Promise.{TextRead};
ghost use Rattle.answer.specs.Promise.{Answered};
ghost use Rattle.view.specs.Promise.{ViewCut};
ghost use Rattle.rewrite.specs.Promise.{RewriteGiven};
ghost use Rattle.curator.specs.Promise.{CuratorAnswered};
ghost use Rattle.kepolas.specs.Told.{heard, Tells};

use answer::answer_on_roll;
use content::check_content;
use curator::curators_answer;
use cutting::cut_view;
use printer::print_query;
use reader::read_text;
use reply::{Reply, number_of};
use rewrite::rewrite;
use roll::{check_roll, run_of};

// Tells a reply.
pub fn tell(reply: Reply, told: &mut usize) -> u64
    ensures { heard result told.new ≡ said reply }
{
    match reply {
        Ok(n) => {
            *told = n;
            0
        }
        Err(refusal) => {
            *told = refusal.place;
            number_of(refusal.reason)
        }
    }
}

// Call 1.
pub fn kepolas_check_roll(roll: &[u8], told: &mut usize) -> u64
    ensures { Tells (RollChecked roll.now) result told.new }
{
    tell(check_roll(roll), told)
}

// Call 2.
pub fn kepolas_read_text(text: &[u8], room: &mut [u8], told: &mut usize) -> u64
    ensures { Tells (λ s. TextRead text.now room.old s room.new) result told.new }
{
    tell(read_text(text, room), told)
}

// Call 3.
pub fn kepolas_answer_on_roll(roll: &[u8], query: &[u8], room: &mut [u8], told: &mut usize) -> u64
    ensures { Tells (λ s. Answered roll.now query.now room.old s room.new) result told.new }
{
    tell(answer_on_roll(roll, query, room), told)
}

// Call 4.
pub fn kepolas_cut_view(
    roll: &[u8],
    annotation: &[u8],
    filters: &[u8],
    room: &mut [u8],
    told: &mut usize,
) -> u64
    ensures { Tells (λ s. ViewCut roll.now annotation.now filters.now room.old s room.new) result told.new }
{
    tell(cut_view(roll, annotation, filters, room), told)
}

// Call 5.
pub fn kepolas_rewrite(
    annotation: &[u8],
    filters: &[u8],
    query: &[u8],
    room: &mut [u8],
    told: &mut usize,
) -> u64
    ensures { Tells (λ s. RewriteGiven annotation.now filters.now query.now room.old s room.new) result told.new }
{
    tell(rewrite(annotation, filters, query, room), told)
}

// Call 6.
pub fn kepolas_curators_answer(
    roll: &[u8],
    annotation: &[u8],
    filters: &[u8],
    query: &[u8],
    room: &mut [u8],
    told: &mut usize,
) -> u64
    ensures { Tells (λ s. CuratorAnswered roll.now annotation.now filters.now query.now room.old s room.new) result told.new }
{
    tell(
        curators_answer(roll, annotation, filters, query, room),
        told,
    )
}

// Call 7 gives a part and no number: it tells where the part starts and ends in the bytes of the roll, an empty one by 0 and 0.
pub fn kepolas_run_of(roll: &[u8], k: usize, start: &mut usize, end: &mut usize)
    ensures { RunPlace roll.now k start.new end.new }
{
    let size = run_of(roll, k).len();
    *start = if size == 0 { 0 } else { 4 * k };
    *end = *start + size;
}

// A query table printed as text: request Q-1 of document 02.
pub fn kepolas_print_query(query: &[u8], room: &mut [u8], told: &mut usize) -> u64
    ensures { Tells (λ s. TablePrinted query.now room.old s room.new) result told.new }
{
    tell(print_query(query, room), told)
}

// The check of a roll's content.
pub fn kepolas_check_content(roll: &[u8], rules: &[u8], list: &[u8], told: &mut usize) -> u64
    ensures { Tells (ContentChecked roll.now rules.now list.now) result told.new }
{
    tell(check_content(roll, rules, list), told)
}
