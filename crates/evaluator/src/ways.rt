// Paths that lead along axes and no further: one step, along one axis or along one of several.
ghost use Rattle.query.specs.Kind.{path};
ghost use Rattle.query.specs.Table.{entries, path_at};
ghost use Rattle.evaluator.specs.Course.{facing};
ghost use Rattle.evaluator.specs.Evaluator.{Within};
ghost use Rattle.tables.specs.Promise.{EntriesRight};
ghost use Rattle.evaluator.specs.Ways.{Leads};

use crate::course::{Course, way};
use crate::entry::{PathEntry, path_entry};
use steps::{Axes, both, only};

// How deep choices may stand in one another for their axes to be looked for: there are four axes, and shared entries must not unfold.
pub(crate) const DEEP: usize = 8;

// The axes along which the path of entry e leads, if it is one step along an axis or a choice of such steps, `deep` in one another at most.
pub(crate) fn way_of(table: &[u8], e: usize, course: Course, deep: usize) -> Option<Axes>
    requires { EntriesRight table.now × Within table.now path e }
    ensures { Leads (facing course (path_at (entries table.now) e)) result }
{
    match path_entry(table, e) {
        PathEntry::Along(axis) => Some(only(way(axis, course))),
        PathEntry::Either(left, right) => {
            if deep == 0 {
                return None;
            }
            let one = way_of(table, left, course, deep - 1)?;
            let other = way_of(table, right, course, deep - 1)?;
            Some(both(one, other))
        }
        _ => None,
    }
}
