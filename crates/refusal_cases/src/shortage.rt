//! A shortage of memory (`Shortage`): a hoard, and how many bytes it is to leave.
use memory_testing::Hoard;
use std::alloc::Global;

/// A hoard, and how many bytes it is to leave.
#[derive(Drop)]
pub struct Shortage<'a> {
    pub alloc: Global,
    pub hoard: &'a mut Hoard,
    pub bytes: usize,
}

impl Shortage<'_> {
    /// Makes memory short.
    pub fn begin(&mut self) {
        self.hoard.leave(self.alloc, self.bytes);
    }

    /// Gives it back.
    pub fn end(&mut self) {
        self.hoard.give();
    }
}
