// The four axes, and several of them at once.
ghost use Rattle.std.specs.Prelude.{ℕ, ◌↔◌, ◌⊎◌};
ghost use Rattle.tree.specs.Tree.{Tree};
ghost use Rattle.steps.specs.Axis.{Along, AlongAny};

#[derive(Clone, Copy)]
pub enum Axis {
    Child,
    Parent,
    Next,
    Previous,
}

// Which axes a step may take: by default none.
#[derive(Clone, Copy, Default)]
pub struct Axes {
    pub child: bool,
    pub parent: bool,
    pub next: bool,
    pub previous: bool,
}

// The axis turned round.
pub fn turned(axis: Axis) -> Axis
    ensures { (t : Tree) (i j : ℕ) → Along t result i j ↔ Along t axis j i }
{
    match axis {
        Axis::Child => Axis::Parent,
        Axis::Parent => Axis::Child,
        Axis::Next => Axis::Previous,
        Axis::Previous => Axis::Next,
    }
}

// One axis alone.
pub fn only(axis: Axis) -> Axes
    ensures { (t : Tree) (i j : ℕ) → AlongAny t result i j ↔ Along t axis i j }
{
    match axis {
        Axis::Child => Axes {
            child: true,
            ..Axes::default()
        },
        Axis::Parent => Axes {
            parent: true,
            ..Axes::default()
        },
        Axis::Next => Axes {
            next: true,
            ..Axes::default()
        },
        Axis::Previous => Axes {
            previous: true,
            ..Axes::default()
        },
    }
}

// The axes of either.
pub fn both(a: Axes, b: Axes) -> Axes
    ensures { (t : Tree) (i j : ℕ) → AlongAny t result i j ↔ (AlongAny t a i j ⊎ AlongAny t b i j) }
{
    Axes {
        child: a.child | b.child,
        parent: a.parent | b.parent,
        next: a.next | b.next,
        previous: a.previous | b.previous,
    }
}
