// What a step is given: a roll with its links, and the axes that may be taken. That the roll is one is asked at each call (`Ready`): a
// ghost field has to be a proposition, and the parent rule may be shown in more than one way.
use crate::axis::Axes;

#[derive(Clone, Copy)]
pub(crate) struct Walk<'a> {
    pub roll: &'a [u8],
    pub links: &'a [u16; 8192],
    pub axes: Axes,
}
