//! Laws of the definitions in `specs/`, for callers to cite. The function does nothing.
ghost use Rattle.cap_base.specs.PathLaws.{LevelsInOrder, ListingsStandBelow, TreesAreTested, UnderByPath};

/// What is under a queue is known by dotted paths. In queues that are listed from the root each is before those under it, so
/// that those above a queue are in order of level.
pub fn paths_are_trees()
    ensures under { UnderByPath }
    ensures tested { TreesAreTested }
    ensures listed { ListingsStandBelow }
    ensures levels { LevelsInOrder }
{}
