//! Worked examples of the definitions in `specs/`, computed by the checker.
//! The functions do nothing: each states in its contract what small clusters and calls give.
ghost use Rattle.cap_examples.specs.ExampleShares.{DominantShares, ShareOfNothing, ThreeShares, LessFullQueueFirst, EqualQueuesByName, AsksByPriority, AsksAreRounded};
ghost use Rattle.cap_examples.specs.ExampleProposals.{MiddleMaximum, RoomIsReserved, ReservationKeepsOthersOut, ReservationIsConverted, SmallerAskDropsNewest, ChangedAskDropsAll, UserLimit, SecondProposalRejected, ReplacedAskRejected, ReturnedNodeIsAnother, NodeFillsUp, OtherReasons, RingFromTheStart, ExamplesAreTrees};
ghost use Rattle.cap_examples.specs.ExampleCalls.{SubmitRefusals, SubmitStatuses, MasterComesAndGoes, GrantIsTold, HeartbeatEnds, ReleasedOnce, ResponseIds, ResponseIdsWrap, NewsInTwoReplies, LargeAsks, KeptAsks, TotalsStayBounded, NodeRefusals, OperatorSees};
ghost use Rattle.cap_examples.specs.ExampleRefresh.{MaximumIsLowered, RoomUnderLoweredMaximum};

/// Fullness compares the greatest share first, and then the next greatest.
pub fn shares_compare_as_in_the_examples()
    ensures two { DominantShares }
    ensures nothing { ShareOfNothing }
    ensures three { ThreeShares }
{}

/// The less full queue is served first, equally full ones by name, and an application's asks by priority.
pub fn queues_are_served_as_in_the_examples()
    ensures fullness { LessFullQueueFirst }
    ensures name { EqualQueuesByName }
    ensures priority { AsksByPriority }
{}

/// Asks are rounded up to multiples of the minimum allocation, then cut to the maximum allocation.
pub fn asks_are_rounded_as_in_the_examples()
    ensures { AsksAreRounded }
{}

/// A grant that would pass the maximum of a queue in the middle is rejected with that queue's level.
pub fn middle_maximum_rejects_as_in_the_example()
    ensures { MiddleMaximum }
{}

/// An ask that does not fit a node now gets a reservation there, which keeps others out until it is converted.
pub fn room_is_reserved_as_in_the_example()
    ensures made { RoomIsReserved }
    ensures alone { ReservationKeepsOthersOut }
    ensures converted { ReservationIsConverted }
{}

/// A smaller ask drops the newest of its reservations, and one of another resource or place all of them.
pub fn reservations_are_dropped_as_in_the_examples()
    ensures smaller { SmallerAskDropsNewest }
    ensures changed { ChangedAskDropsAll }
{}

/// Proposals that no longer hold are rejected, each with the first reason.
pub fn proposals_are_rejected_as_in_the_examples()
    ensures user { UserLimit }
    ensures second { SecondProposalRejected }
    ensures replaced { ReplacedAskRejected }
    ensures returned { ReturnedNodeIsAnother }
    ensures full { NodeFillsUp }
    ensures others { OtherReasons }
{}

/// Nodes are looked at as a ring from the starting position.
pub fn nodes_are_a_ring_as_in_the_example()
    ensures { RingFromTheStart }
{}

/// The queues of these examples are trees.
pub fn queues_are_trees_as_in_the_examples()
    ensures { ExamplesAreTrees }
{}

/// The refusals of a submit, and of several that hold the smallest number.
pub fn submits_are_refused_as_in_the_examples()
    ensures replies { SubmitRefusals }
    ensures statuses { SubmitStatuses }
{}

/// A master registers once and finishes once.
pub fn masters_come_and_go_as_in_the_examples()
    ensures { MasterComesAndGoes }
{}

/// A granted container is reported with its host, once.
pub fn grants_are_told_as_in_the_example()
    ensures { GrantIsTold }
{}

/// A heartbeat ends the named containers that are live on its node, and a repeat changes nothing.
pub fn heartbeats_end_containers_as_in_the_example()
    ensures { HeartbeatEnds }
{}

/// A release named twice ends its container once, and a foreign one ends nothing.
pub fn containers_are_released_as_in_the_example()
    ensures { ReleasedOnce }
{}

/// The next response id is processed, a repeated one gets the kept reply, and any other is refused.
pub fn response_ids_are_checked_as_in_the_examples()
    ensures ids { ResponseIds }
    ensures wrap { ResponseIdsWrap }
{}

/// Of 70 grants an allocate reports the oldest 64, and the next one the other 6.
pub fn news_is_told_as_in_the_example()
    ensures { NewsInTwoReplies }
{}

/// Asks over the maximum allocation are refused; those that stay are kept rounded and in order of key.
pub fn asks_are_kept_as_in_the_examples()
    ensures large { LargeAsks }
    ensures kept { KeptAsks }
{}

/// Nodes are refused in order, among them one that would bring the sum of the totals over its bound.
pub fn nodes_are_refused_as_in_the_examples()
    ensures totals { TotalsStayBounded }
    ensures others { NodeRefusals }
{}

/// What QueueInfo and ClusterInfo answer.
pub fn operators_see_as_in_the_examples()
    ensures { OperatorSees }
{}

/// A Refresh that lowers a maximum below what is used ends nothing, and nothing is granted until the use is below it.
pub fn maximum_is_lowered_as_in_the_examples()
    ensures lowered { MaximumIsLowered }
    ensures room { RoomUnderLoweredMaximum }
{}
