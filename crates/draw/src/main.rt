// The program: roll.rec, view.rec (the annotation) and filters.rec are read from the folder that it is run in, and each line of standard
// input is a query text, answered by a line on standard output. It only moves bytes: what a line is answered by is proved in `line`.

#![tactic(auto)]

mod file;
mod line;
mod stream;

use file::load;
use line::Archive;
use reply::{FILTER_ENTRIES, NODES, RECORDS};
use stream::{draw, unreadable};

// A file that is longer than its table may be is cut one record behind that, and is refused by its length all the same.
fn main(rt: HostRuntime) {
    let mut roll = [0u8; 4 * NODES + 4];
    let mut view = [0u8; 6 * RECORDS + 6];
    let mut filters = [0u8; 6 * FILTER_ENTRIES + 6];
    let files = (
        load(&rt, b"roll.rec", &mut roll),
        load(&rt, b"view.rec", &mut view),
        load(&rt, b"filters.rec", &mut filters),
    );
    let (Some(nodes), Some(records), Some(entries)) = files else {
        unreadable(rt.stdout());
        return;
    };
    let archive = Archive {
        roll: &roll[..nodes],
        view: &view[..records],
        filters: &filters[..entries],
    };
    draw(rt.stdin(), rt.stdout(), &archive);
}
