// An annotation is checked, record by record, against its filter table.
ghost use Rattle.std.specs.Prelude.{◌↔◌, ℕ, ◌<◌, T, length};
ghost use Rattle.reply.specs.Reply.{said};
ghost use Rattle.query.specs.Table.{entries};
ghost use Rattle.view.specs.Annotation.{records, record_at, RecordForm, AboveLast, RecordRight};
ghost use Rattle.checks.specs.Checks.{RecordChecked, AnnotationChecked};

use crate::annotation::{count, record_at};
use reply::{RECORDS, Reason, Reply, refuse};
use tables::{Sort, has_sort, whole};
use tree::is_label;

// Whether record i has two labels, ends in zero bytes and names a filter entry.
fn form_fits(annotation: &[u8], filters: &[u8], i: usize) -> bool
    ensures { T result ↔ RecordForm (entries filters.now) (record_at (records annotation.now) i) }
{
    let own = record_at(annotation, i);
    let labels = is_label(own.parent) & is_label(own.child);
    labels & (own.rest == 0) & has_sort(filters, own.filter, Sort::Filter)
}

// Whether the pair of record i is above the one before: "by parent label and then child label".
fn ascends(annotation: &[u8], i: usize) -> bool
    ensures { T result ↔ AboveLast (records annotation.now) i }
{
    if i == 0 {
        return true;
    }
    let last = record_at(annotation, i - 1);
    let own = record_at(annotation, i);
    (last.parent, last.child) < (own.parent, own.child)
}

// Checks record i, where the records before it are right: "in it 10, 11".
fn check_record(annotation: &[u8], filters: &[u8], i: usize) -> Reply
    requires i_in_bounds { i < length (records annotation.now) }
    requires by_index { (k : ℕ) → k < i → RecordRight (entries filters.now) annotation.now k }
    ensures { RecordChecked annotation.now filters.now i (said result) }
{
    let formed = form_fits(annotation, filters, i);
    let above = ascends(annotation, i);
    if !formed {
        return refuse(Reason::AnnotationRecord, i);
    }
    if !above {
        return refuse(Reason::PairOrder, i);
    }
    Ok(1)
}

// Checks an annotation against its filter table: its number of records, or the first fault and its place.
pub fn check_annotation(annotation: &[u8], filters: &[u8]) -> Reply
    ensures { AnnotationChecked annotation.now filters.now (said result) }
{
    if !whole::<6>(annotation, RECORDS) {
        return refuse(Reason::AnnotationLength, 0);
    }
    let n = count(annotation);
    for i in 0..n {
        check_record(annotation, filters, i)?;
    }
    Ok(n)
}
