// Paths and filters on sets of nodes: a path takes a set to its image, and a filter narrows a set to the nodes where it holds. The two
// call each other, and the entry number falls.
ghost use Rattle.std.specs.Prelude.{IfSome};
ghost use Rattle.roll.specs.Roll.{nodes};
ghost use Rattle.query.specs.Kind.{path, filter};
ghost use Rattle.query.specs.Meaning.{reach, holds};
ghost use Rattle.query.specs.Syntax as syntax;
ghost use Rattle.query.specs.Table.{entries, filter_at};
ghost use Rattle.sets.specs.Sets.{Image, Narrowed};
ghost use Rattle.evaluator.specs.Entry.{ForPath};
ghost use Rattle.evaluator.specs.Evaluation.{Asks, goes};
ghost use Rattle.evaluator.specs.Evaluator.{Still, Sources};

use crate::at_hand::stays_at_hand;
use crate::course::{Course, first_of, way};
use crate::entry::{FilterEntry, PathEntry, filter_entry, path_entry};
use crate::ways::{DEEP, way_of};
use reply::NODES;
use roll::count;
use sets::{below, common, difference, empty, is_empty, union};
use steps::{closure, labelled, only, step};

// What an evaluation rests on: a roll with its links, a table of paths and filters, and of one filter, of number `known`, the nodes where
// it holds, `held`. What is known of them is asked at each call (`Asks`): a ghost field has to be a proposition, and this is more.
#[derive(Clone, Copy)]
pub(crate) struct Evaluation<'a> {
    pub(crate) roll: &'a [u8],
    pub(crate) links: &'a [u16; 8192],
    pub(crate) table: &'a [u8],
    pub(crate) held: &'a [u64; 64],
    pub(crate) known: usize,
}

impl<'a> Evaluation<'a> {
    // What the path of entry e reaches from a set of nodes, on a course.
    #[cycle(walk)]
    pub(crate) fn image(&self, e: usize, course: Course, from: [u64; 64]) -> [u64; 64]
        requires { Asks self.now path e from }
        ensures { Image (reach (nodes self.now.roll.now) (goes self.now e course)) from result }
    {
        if is_empty(from) {
            return from;
        }
        match path_entry(self.table, e) {
            PathEntry::Itself => from,
            PathEntry::Along(axis) => step(self.roll, self.links, only(way(axis, course)), from),
            PathEntry::Stay(filter) => match course {
                Course::Freely => from,
                Course::Forwards | Course::Backwards => self.narrow(filter, from),
            },
            PathEntry::Then(left, right) => {
                let first = first_of(course, left, right);
                let second = first_of(course, right, left);
                let half = self.image(first, course, from);
                self.image(second, course, half)
            }
            PathEntry::Either(left, right) => {
                let one = self.image(left, course, from);
                let other = self.image(right, course, from);
                union(one, other)
            }
            PathEntry::Star(path) => self.star(path, course, from),
        }
    }

    // What the path reaches in zero or more goes: along axes each node is gone on from once; of a star it is what that star
    // reaches; and a path made of others goes by rounds.
    #[cycle(walk)]
    fn star(&self, e: usize, course: Course, from: [u64; 64]) -> [u64; 64]
        requires { Asks self.now path e from }
        ensures { Image (reach (nodes self.now.roll.now) (syntax.star (goes self.now e course))) from result }
    {
        match path_entry(self.table, e) {
            PathEntry::Star(path) => self.star(path, course, from),
            _ => match self.at_once(e, course, from) {
                Some(reached) => reached,
                None => self.by_rounds(e, course, from),
            },
        }
    }

    // What the path reaches so, where it is found without rounds. It is a call of its own, since its sets would take room beneath each star
    // of a star, and beneath rounds too.
    #[cycle(walk)]
    #[inline(never)]
    fn at_once(&self, e: usize, course: Course, from: [u64; 64]) -> Option<[u64; 64]>
        requires { Asks self.now path e from }
        ensures { IfSome result (Image (reach (nodes self.now.roll.now) (syntax.star (goes self.now e course))) from) }
    {
        match path_entry(self.table, e) {
            PathEntry::Then(left, right) => self.of_two(e, left, right, course, from),
            _ => {
                let axes = way_of(self.table, e, course, DEEP)?;
                Some(closure(self.roll, self.links, axes, below(NODES), from))
            }
        }
    }

    // The star of one path and then another, if one of the two is a filter at hand and the other leads along axes: it goes on from each
    // node once. A step and then the filter, many times, is a step, then the filter and a step many times, and the filter. It is a call
    // of its own, since its sets would take room where the path leads along axes too.
    #[cycle(walk)]
    #[inline(never)]
    fn of_two(
        &self,
        e: usize,
        left: usize,
        right: usize,
        course: Course,
        from: [u64; 64],
    ) -> Option<[u64; 64]>
        requires asked { Asks self.now path e from }
        requires parts { ForPath self.now.table.now e (PathEntry.Then left right) }
        ensures { IfSome result (Image (reach (nodes self.now.roll.now) (syntax.star (goes self.now e course))) from) }
    {
        let first = first_of(course, left, right);
        let second = first_of(course, right, left);
        if stays_at_hand(self.table, self.known, first) {
            let axes = way_of(self.table, second, course, DEEP)?;
            let open = self.sources(first, course, from);
            return Some(closure(self.roll, self.links, axes, open, from));
        }
        if stays_at_hand(self.table, self.known, second) {
            let axes = way_of(self.table, first, course, DEEP)?;
            let begun = step(self.roll, self.links, axes, from);
            let open = self.sources(second, course, begun);
            let ends = closure(self.roll, self.links, axes, open, begun);
            return Some(union(from, common(ends, open)));
        }
        None
    }

    // Where a star may go on that starts from a set: at the nodes where the filter holds that the path stays by. All nodes are asked at
    // once. If it holds nowhere in the set, the star ends there. It is a call of its own, since its sets would take room twice.
    #[cycle(walk)]
    #[inline(never)]
    fn sources(&self, e: usize, course: Course, from: [u64; 64]) -> [u64; 64]
        requires asked { Asks self.now path e from }
        requires still { Still (goes self.now e course) }
        ensures { Sources (nodes self.now.roll.now) (goes self.now e course) from result }
    {
        let here = self.image(e, course, from);
        if is_empty(here) {
            return here;
        }
        let all = below(count(self.roll));
        self.image(e, course, all)
    }

    // What the path reaches in zero or more goes, whatever it is made of: each round goes on from what is new in the last one, until
    // nothing is.
    #[cycle(walk)]
    fn by_rounds(&self, e: usize, course: Course, from: [u64; 64]) -> [u64; 64]
        requires { Asks self.now path e from }
        ensures { Image (reach (nodes self.now.roll.now) (syntax.star (goes self.now e course))) from result }
    {
        let mut all = empty();
        let mut fresh = from;
        while !is_empty(fresh) {
            let grown = union(all, fresh);
            let reached = self.image(e, course, fresh);
            let rest = difference(reached, grown);
            all = grown;
            fresh = rest;
        }
        all
    }

    // The nodes of a set where the filter of entry e holds. Whether a path leads somewhere is asked backwards from where it could lead if
    // its filters all held: these nodes are found with no filter evaluated, and all that it leads to is among them.
    #[cycle(walk)]
    pub(crate) fn narrow(&self, e: usize, from: [u64; 64]) -> [u64; 64]
        requires { Asks self.now filter e from }
        ensures { Narrowed (holds (nodes self.now.roll.now) (filter_at (entries self.now.table.now) e)) from result }
    {
        if is_empty(from) {
            return from;
        }
        if e == self.known {
            return common(from, *self.held);
        }
        match filter_entry(self.table, e) {
            FilterEntry::Labelled(label) => labelled(self.roll, label, from),
            FilterEntry::Leads(path) => {
                let ends = self.image(path, Course::Freely, from);
                let starts = self.image(path, Course::Backwards, ends);
                common(from, starts)
            }
            FilterEntry::Always => from,
            FilterEntry::Never => empty(),
            FilterEntry::Not(left) => difference(from, self.narrow(left, from)),
            FilterEntry::And(left, right) => {
                let first = self.narrow(left, from);
                self.narrow(right, first)
            }
            FilterEntry::Or(left, right) => {
                let first = self.narrow(left, from);
                let rest = difference(from, first);
                union(first, self.narrow(right, rest))
            }
        }
    }
}
