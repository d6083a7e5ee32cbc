//! Steps made one after the other over an opening cluster (`World::run`), with the headline as its contract.
ghost use Rattle.std.specs.Prelude.{◌≡◌, ◌≤◌, [], length, is_err};
ghost use Rattle.cap_world.specs.World.{Adds, start, is_open, output_of};
ghost use Rattle.cap_model.specs.Bounds.{IsBounded};
ghost use Rattle.cap_world.specs.Making.{Makes};
ghost use Rattle.cap_world.specs.Hearing.{attempts_of, IsHeadline};
ghost use Rattle.cap_world.specs.Once.{StaysBounded, HappensOnce};

use crate::step::{Did, Step};
use crate::world::World;
use cap_base::RESOURCES;
use cap_commit::Cluster;
use cap_model::{Event, NoMemory};
use std::alloc::Global;

/// What a run leaves: the world, the events, and the number of steps before the first for which an allocation failed.
#[derive(Drop)]
pub struct Outcome {
    pub world: World,
    pub events: Vec<Event<RESOURCES>>,
    pub done: usize,
}

impl World {
    /// Makes the steps one after the other, up to the first for which an allocation fails: a piece on an open connection, a
    /// number that opens for the first time, a worker's copy, or the commit of a proposal that is admissible. From a bounded
    /// cluster, as settings open it, every state is bounded, and each container is granted, ended and reported once.
    pub fn run(alloc: Global, opening: Cluster<RESOURCES>, steps: &[Step]) -> Outcome
        ensures done { result.done ≤ length steps.now }
        ensures opening { result.world.opening ≡ opening.flat }
        ensures events { result.world.events ≡ result.events.items }
        ensures made { Makes (attempts_of steps.now result.done) (start opening.flat).sight
            result.world.sight [] result.events.items }
        ensures headline { IsHeadline opening.flat (attempts_of steps.now result.done)
            result.events.items result.world.sight.cluster (λ c. output_of c result.world.sight)
            (λ c. is_open c result.world.sight) }
        ensures bounded { IsBounded opening.flat
            → StaysBounded opening.flat result.events.items result.world.sight.cluster }
        ensures once { IsBounded opening.flat
            → HappensOnce opening.flat result.events.items result.world.sight.cluster }
    {
        let mut world = World::open(alloc, opening);
        let mut events = Vec::new(alloc);
        let done = world.make_all(steps, &mut events);
        Outcome {
            world,
            events,
            done,
        }
    }

    /// Makes the steps one after the other, up to the first for which an allocation fails. The result is how many come before it.
    fn make_all(&mut self, steps: &[Step], events: &mut Vec<Event<RESOURCES>>) -> usize
        ensures done { result ≤ length steps.now }
        ensures made { Makes (attempts_of steps.now result) self.old.sight self.new.sight
            events.old.items events.new.items }
        ensures adds { Adds self.old self.new events.old.items events.new.items }
    {
        for (i, step) in steps.iter().enumerate() {
            let made = self.step(*step, events);
            if ends_run(&made) {
                return i;
            }
        }
        steps.len()
    }
}

/// Whether a step of this result ends its run: only where an allocation failed in it.
fn ends_run(made: &Result<Did, NoMemory>) -> bool
    ensures { result ≡ is_err made.now }
{
    made.is_err()
}
