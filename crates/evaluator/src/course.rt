// The three courses on which a path is walked.
ghost use Rattle.std.specs.Prelude.{◌≡◌, ◌↔◌, ℕ};
ghost use Rattle.tree.specs.Tree.{Tree};
ghost use Rattle.query.specs.Meaning.{reach};
ghost use Rattle.steps.specs.Axis.{Along};
ghost use Rattle.evaluator.specs.Course.{facing, path_of, first_of};

use steps::{Axis, turned};

// Forwards; backwards, with the axes turned round and the steps in the other order; or forwards with every filter taken to hold.
#[derive(Clone, Copy)]
pub enum Course {
    Forwards,
    Backwards,
    Freely,
}

// How the path of an entry is walked: on a course. Of one filter, of number `known`, the nodes where it holds may be known beforehand.
#[derive(Clone, Copy)]
pub struct Walk {
    pub entry: usize,
    pub course: Course,
    pub known: usize,
}

// The one of two operands that comes first.
pub(crate) fn first_of(course: Course, left: usize, right: usize) -> usize
    ensures { result ≡ first_of course left right }
{
    match course {
        Course::Forwards | Course::Freely => left,
        Course::Backwards => right,
    }
}

// The axis of a step, or the axis turned round.
pub(crate) fn way(axis: Axis, course: Course) -> Axis
    ensures { (t : Tree) (i j : ℕ) → Along t result i j ↔ reach t (facing course (path_of axis)) i j }
{
    match course {
        Course::Forwards | Course::Freely => axis,
        Course::Backwards => turned(axis),
    }
}
