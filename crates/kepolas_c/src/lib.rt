// The library for C and Rust: each export is the call of its name in `kepolas`, with the same promise. C finds a function by its name
// alone and has no generic one, so each is written out, with plain numbers in and out.

#![tactic(auto)]

ghost use Rattle.roll.specs.Promise.{RollChecked, RunPlace};
ghost use Rattle.rules.specs.Promise.{ContentChecked};
ghost use Rattle.text.specs.Print.{TablePrinted};
ghost use Rattle.text.specs.Promise.{TextRead};
ghost use Rattle.answer.specs.Promise.{Answered};
ghost use Rattle.view.specs.Promise.{ViewCut};
ghost use Rattle.rewrite.specs.Promise.{RewriteGiven};
ghost use Rattle.curator.specs.Promise.{CuratorAnswered};
ghost use Rattle.kepolas.specs.Told.{Tells};

// Call 1.
#[unsafe(no_mangle)]
pub extern "C" fn kepolas_check_roll(roll: &[u8], told: &mut usize) -> u64
    ensures { Tells (RollChecked roll.now) result told.new }
{
    kepolas::kepolas_check_roll(roll, told)
}

// Call 2.
#[unsafe(no_mangle)]
pub extern "C" fn kepolas_read_text(text: &[u8], room: &mut [u8], told: &mut usize) -> u64
    ensures { Tells (λ s. TextRead text.now room.old s room.new) result told.new }
{
    kepolas::kepolas_read_text(text, room, told)
}

// Call 3.
#[unsafe(no_mangle)]
pub extern "C" fn kepolas_answer_on_roll(
    roll: &[u8],
    query: &[u8],
    room: &mut [u8],
    told: &mut usize,
) -> u64
    ensures { Tells (λ s. Answered roll.now query.now room.old s room.new) result told.new }
{
    kepolas::kepolas_answer_on_roll(roll, query, room, told)
}

// Call 4.
#[unsafe(no_mangle)]
pub extern "C" fn kepolas_cut_view(
    roll: &[u8],
    annotation: &[u8],
    filters: &[u8],
    room: &mut [u8],
    told: &mut usize,
) -> u64
    ensures { Tells (λ s. ViewCut roll.now annotation.now filters.now room.old s room.new) result told.new }
{
    kepolas::kepolas_cut_view(roll, annotation, filters, room, told)
}

// Call 5.
#[unsafe(no_mangle)]
pub extern "C" fn kepolas_rewrite(
    annotation: &[u8],
    filters: &[u8],
    query: &[u8],
    room: &mut [u8],
    told: &mut usize,
) -> u64
    ensures { Tells (λ s. RewriteGiven annotation.now filters.now query.now room.old s room.new) result told.new }
{
    kepolas::kepolas_rewrite(annotation, filters, query, room, told)
}

// Call 6.
#[unsafe(no_mangle)]
pub extern "C" fn kepolas_curators_answer(
    roll: &[u8],
    annotation: &[u8],
    filters: &[u8],
    query: &[u8],
    room: &mut [u8],
    told: &mut usize,
) -> u64
    ensures { Tells (λ s. CuratorAnswered roll.now annotation.now filters.now query.now room.old s room.new) result told.new }
{
    kepolas::kepolas_curators_answer(roll, annotation, filters, query, room, told)
}

// Call 7 gives a part and no number: it tells where the part starts and ends in the bytes of the roll, an empty one by 0 and 0.
#[unsafe(no_mangle)]
pub extern "C" fn kepolas_run_of(roll: &[u8], k: usize, start: &mut usize, end: &mut usize)
    ensures { RunPlace roll.now k start.new end.new }
{
    kepolas::kepolas_run_of(roll, k, start, end)
}

// A query table printed as text: request Q-1 of document 02.
#[unsafe(no_mangle)]
pub extern "C" fn kepolas_print_query(query: &[u8], room: &mut [u8], told: &mut usize) -> u64
    ensures { Tells (λ s. TablePrinted query.now room.old s room.new) result told.new }
{
    kepolas::kepolas_print_query(query, room, told)
}

// The check of a roll's content.
#[unsafe(no_mangle)]
pub extern "C" fn kepolas_check_content(
    roll: &[u8],
    rules: &[u8],
    list: &[u8],
    told: &mut usize,
) -> u64
    ensures { Tells (ContentChecked roll.now rules.now list.now) result told.new }
{
    kepolas::kepolas_check_content(roll, rules, list, told)
}
