// An annotation's records by their pairs, so that a node's pair is looked up at once. Records that name one filter share its answer.
ghost use Rattle.std.specs.Prelude.{◌≡◌, ◌≤◌, length, slice_index_or};
ghost use Rattle.tree.specs.Tree.{Label};
ghost use Rattle.view.specs.Annotation.{records};
ghost use Rattle.visible.specs.Index.{pair_of, FirstNamed, Indexed, Labelled};

use checks::{count, record_at};

// The place of a pair: labels are below 65.
fn pair_of(parent: usize, child: usize) -> usize
    requires { Label parent × Label child }
    ensures { result ≡ pair_of parent child }
{
    65 * parent + child
}

// The first record that names the filter of record r.
pub(crate) fn first_named(annotation: &[u8], r: usize) -> usize
    ensures { FirstNamed annotation.now r result }
{
    let wanted = record_at(annotation, r).filter;
    for s in 0..r {
        if record_at(annotation, s).filter == wanted {
            return s;
        }
    }
    r
}

// The index of an annotation.
pub(crate) fn index_of(annotation: &[u8]) -> [Option<u8>; 4225]
    requires { Labelled annotation.now × (length (records annotation.now) ≤ 32) }
    ensures { Indexed annotation.now result }
{
    let mut index = [None; 4225];
    for r in 0..count(annotation) {
        let own = record_at(annotation, r);
        index[pair_of(own.parent, own.child)] = Some(first_named(annotation, r) as u8);
    }
    index
}

// What the index says of a pair.
pub(crate) fn row_of(index: &[Option<u8>; 4225], parent: usize, child: usize) -> Option<usize>
    requires { Label parent × Label child }
    ensures { result ≡ slice_index_or index.now (pair_of parent child) None }
{
    let row = index[pair_of(parent, child)]?;
    Some(usize::from(row))
}
