//! Laws of the definitions in `specs/`, for callers to cite. The functions do nothing.
ghost use Rattle.cap_laws.specs.EngineLaws.{RejectedExactly, NumbersStayDistinct, GrantedOnce, StepIsDetermined, RunLeadsToOneState, ContainersBalance, EndedOnce, LiveIsWhatWasNotEnded, OneOfEachRank, ChoiceIsComputed, ChoiceFromIsComputed, AppNumbersStayDistinct, ReasonsAreInOrder, PassedIsStep};
ghost use Rattle.cap_laws.specs.NewsLaws.{GrantsAreToldInOrder, EndsAreToldInOrder, GrantsAreToldOverRuns, NewGrantsAreOfTheGranted, EndsAreToldOverRuns, NewEndsAreOfTheEnded};
ghost use Rattle.cap_laws.specs.RefreshLaws.{RefreshSetsAll};
ghost use Rattle.cap_laws.specs.BoundLaws.{ParentUsesChildren, StepStaysWellFormed, QueuesStayBounded, LimitsStayMet, QuietRunsRaiseNothing, LimitsOverRuns, NodesStayBounded, ReservationsStayApart, ReservationsStayBounded, TreesAddUp, StepStaysBounded, RunsStayBounded, OpenedIsBounded, OpenedMeetsLimits, WantedIsSeen, UsesAreSums, SizesStay, OpenedIsWithinSizes, NumbersAreNotUsedAgain, RunsStayWithinSizes, EndsStayBounded, AskStaysBounded, ReportStaysBounded};

/// A proposal has no reason to be rejected exactly where it is admissible, and of several the one of the smallest number.
pub fn reason_says_why()
    ensures exact { RejectedExactly }
    ensures order { ReasonsAreInOrder }
    ensures steps { PassedIsStep }
{}

/// No container number is live twice or granted twice.
pub fn container_numbers_are_used_once()
    ensures live { NumbersStayDistinct }
    ensures granted { GrantedOnce }
{}

/// The cluster after a step is determined by the event, and so the cluster after a run by its events.
pub fn steps_are_determined()
    ensures step { StepIsDetermined }
    ensures run { RunLeadsToOneState }
{}

/// No container ends twice in a run, and what is live or has ended at its close was live at its opening or was granted.
pub fn containers_end_once()
    ensures balance { ContainersBalance }
    ensures ended { EndedOnce }
    ensures live { LiveIsWhatWasNotEnded }
{}

/// Of the admissible proposals on a node exactly one is served first, and it is the least of all that are written out.
pub fn choice_is_the_least()
    ensures ranks { OneOfEachRank }
    ensures node { ChoiceIsComputed }
    ensures ring { ChoiceFromIsComputed }
{}

/// A parent queue uses what its children use together.
pub fn parents_use_what_their_children_use()
    ensures { ParentUsesChildren }
{}

/// Its grants and its ends are reported to an application in the order in which they came, each once.
pub fn news_is_told_in_order()
    ensures grants { GrantsAreToldInOrder }
    ensures ends { EndsAreToldInOrder }
{}

/// No number of an application or of a node is there twice or used again.
pub fn application_and_node_numbers_are_used_once()
    ensures distinct { AppNumbersStayDistinct }
    ensures again { NumbersAreNotUsedAgain }
{}

/// Over a whole run its grants are reported to an application in the order in which they came, each once.
pub fn grants_are_told_over_runs()
    ensures told { GrantsAreToldOverRuns }
    ensures added { NewGrantsAreOfTheGranted }
{}

/// Over a whole run the ends of its containers are reported to an application in the order in which they came, each once.
pub fn ends_are_told_over_runs()
    ensures told { EndsAreToldOverRuns }
    ensures added { NewEndsAreOfTheEnded }
{}

/// A step keeps a cluster well-formed: applications in leaf queues, distinct numbers, and an application and a node for
/// each live container and each reservation.
pub fn steps_keep_clusters_well_formed()
    ensures { StepStaysWellFormed }
{}

/// Without a Refresh a queue stays within its maximum, and a user within the user limit.
pub fn steps_keep_queues_within_limits()
    ensures limits { LimitsStayMet }
    ensures queues { QueuesStayBounded }
{}

/// A Refresh that is not refused gives each queue the row of its path in the property lines, and sets the three limits; all else
/// stays as it was.
pub fn refresh_sets_all_settings()
    ensures { RefreshSetsAll }
{}

/// In every state of a run each queue's use is within its maximum, or not risen since the lowering that put it over, and of
/// users the same of the user limit: no grant and no reservation for it has come since a state in which the limit was met, or
/// since the opening. A run without them leaves the use where it was, or lower.
pub fn limits_are_met_or_not_risen()
    ensures runs { LimitsOverRuns }
    ensures quiet { QuietRunsRaiseNothing }
{}

/// A step keeps what runs on a node within the node's total.
pub fn steps_keep_nodes_within_totals()
    ensures { NodesStayBounded }
{}

/// A step keeps reservations on different nodes, each where it fits and for an ask that wants it.
pub fn steps_keep_reservations_within_asks()
    ensures apart { ReservationsStayApart }
    ensures bounded { ReservationsStayBounded }
{}

/// In a tree of queues a parent uses what its children use together.
pub fn trees_add_up()
    ensures { TreesAddUp }
{}

/// A step from a bounded cluster leaves a bounded one.
pub fn steps_keep_bounds()
    ensures { StepStaysBounded }
{}

/// A part of a call keeps the bounds too: containers that end, an ask that is put, a report to a master.
pub fn parts_of_calls_keep_bounds()
    ensures ends { EndsStayBounded }
    ensures asks { AskStaysBounded }
    ensures reports { ReportStaysBounded }
{}

/// A cluster that was opened just now is bounded and within its limits, and every state of a run from a bounded one is bounded.
pub fn runs_stay_bounded()
    ensures opened { OpenedIsBounded }
    ensures limits { OpenedMeetsLimits }
    ensures runs { RunsStayBounded }
{}

/// What a sight shows as still wanted is the ask's count less the reservations for it.
pub fn sights_show_what_is_wanted()
    ensures { WantedIsSeen }
{}

/// Each queue's use is a sum of use.
pub fn uses_are_sums()
    ensures { UsesAreSums }
{}

/// Numbers, the nodes' totals, and how many nodes and containers there are stay within their bounds.
pub fn sizes_stay_bounded()
    ensures opened { OpenedIsWithinSizes }
    ensures steps { SizesStay }
    ensures runs { RunsStayWithinSizes }
{}
