//! What is found at a dotted path (`Found`), and where a queue is in the tree, by child indexes (`Path`).

use smallvec::SmallVec;
use std::alloc::Allocator;

/// The child indexes that lead from the root to a queue: at most 15. It takes no memory.
pub type Path<A> = SmallVec<u32, 16, A>;

/// Whether a queue has children.
#[derive(Clone, Copy, Debug, PartialEq, Eq)]
pub enum Kind {
    /// It has none.
    Leaf,
    /// It has some.
    Parent,
}

/// What is found at a dotted path.
#[derive(Drop)]
pub enum Found<A: Allocator> {
    /// A queue without children.
    Leaf(Path<A>),
    /// A queue with children.
    Parent(Path<A>),
    /// No queue.
    Missing,
}
