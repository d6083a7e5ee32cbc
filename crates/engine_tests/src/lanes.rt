//! Tests of the lanes from eight workers to one committer, in one thread and in many.

mod passing;
mod tests;
