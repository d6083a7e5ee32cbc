//! What is made where each allocation is refused in turn, and what takes none.
mod calls;
mod frugal;
mod heaps;
mod requests;
mod sessions;
mod shared;
mod trees;
mod worlds;
