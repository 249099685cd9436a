// The checks of calls that take several inputs, in the order: room, roll, filter table, annotation, query.
// `room` is the length of the lent output.
ghost use Rattle.reply.specs.Reply.{said};
ghost use Rattle.checks.specs.Checks.{AnnotatedChecked, AskedChecked};
ghost use Rattle.checks.specs.Ready.{ReadyToAnswer, ReadyToCut, ReadyToRewrite, ReadyForCurator};

use crate::check::check_annotation;
use reply::{
    ANSWER_ENTRIES, ANSWER_HEIGHT, BITMAP_ROOM, CURATOR_ENTRIES, CURATOR_HEIGHT, REWRITTEN_ROOM,
    Reason, Reply, refuse,
};
use roll::check_roll;
use tables::{check_filters, check_query};

// The filter table, then the annotation: the number of records.
fn check_annotated(annotation: &[u8], filters: &[u8]) -> Reply
    ensures { AnnotatedChecked annotation.now filters.now (said result) }
{
    check_filters(filters)?;
    check_annotation(annotation, filters)
}

// The filter table, the annotation, then the curator's query: its number of entries.
fn check_asked(annotation: &[u8], filters: &[u8], query: &[u8]) -> Reply
    ensures { AskedChecked annotation.now filters.now query.now (said result) }
{
    check_annotated(annotation, filters)?;
    check_query(query, CURATOR_ENTRIES, CURATOR_HEIGHT)
}

// Call 3: the number of nodes.
pub fn ready_to_answer(room: usize, roll: &[u8], query: &[u8]) -> Reply
    ensures { ReadyToAnswer room roll.now query.now (said result) }
{
    if room < BITMAP_ROOM {
        return refuse(Reason::ShortRoom, 0);
    }
    let nodes = check_roll(roll)?;
    check_query(query, ANSWER_ENTRIES, ANSWER_HEIGHT)?;
    Ok(nodes)
}

// Call 4: the number of nodes.
pub fn ready_to_cut(room: usize, roll: &[u8], annotation: &[u8], filters: &[u8]) -> Reply
    ensures { ReadyToCut room roll.now annotation.now filters.now (said result) }
{
    if room < roll.len() {
        return refuse(Reason::ShortRoom, 0);
    }
    let nodes = check_roll(roll)?;
    check_annotated(annotation, filters)?;
    Ok(nodes)
}

// Call 5: the number of entries of the query.
pub fn ready_to_rewrite(room: usize, annotation: &[u8], filters: &[u8], query: &[u8]) -> Reply
    ensures { ReadyToRewrite room annotation.now filters.now query.now (said result) }
{
    if room < REWRITTEN_ROOM {
        return refuse(Reason::ShortRoom, 0);
    }
    check_asked(annotation, filters, query)
}

// Call 6: the number of nodes.
pub fn ready_for_curator(
    room: usize,
    roll: &[u8],
    annotation: &[u8],
    filters: &[u8],
    query: &[u8],
) -> Reply
    ensures { ReadyForCurator room roll.now annotation.now filters.now query.now (said result) }
{
    if room < BITMAP_ROOM {
        return refuse(Reason::ShortRoom, 0);
    }
    let nodes = check_roll(roll)?;
    check_asked(annotation, filters, query)?;
    Ok(nodes)
}
