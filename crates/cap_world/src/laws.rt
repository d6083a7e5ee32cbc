//! Laws of worlds, for callers to cite. The functions do nothing.
ghost use Rattle.cap_world.specs.Laws.{WorldsStayBounded, OpeningsAreBounded, ContainersAreUsedOnce, NewsIsReportedOnce};
ghost use Rattle.cap_world.specs.Making.{MadeStepsHaveTheHeadline};
ghost use Rattle.cap_world.specs.WorkerLaws.{CommitsAreExact, CopiedChoicesAreMade, ProposalsAreOfCopies, QuietStepsMakeNoEvent};

/// Steps that `World::step` made one after the other, from an opening on, have the headline, as those of `World::run` have it: of
/// each nothing is asked but its `outcome`, and of some it may be `NoMemory`.
pub fn made_steps_have_the_headline()
    ensures { MadeStepsHaveTheHeadline }
{}

/// Whatever the steps, every state of the cluster is bounded, where the opening is: always each queue's use is the sum under it and
/// within its maximum, or not risen since the lowering that put it over (since the opening, where it was over then), each user's the
/// same of the user limit, and no node is over its total. The cluster that the settings of a text open is bounded, and within its
/// limits.
pub fn worlds_stay_bounded()
    ensures runs { WorldsStayBounded }
    ensures opening { OpeningsAreBounded }
{}

/// Whatever the steps, no container is granted or ended twice, and those that are live at the close are those of the opening and
/// those granted, without those that have ended.
pub fn containers_are_used_once()
    ensures { ContainersAreUsedOnce }
{}

/// Whatever the steps, each application is reported its grants and the ends of its containers in the order in which they came,
/// each once.
pub fn news_is_reported_once()
    ensures { NewsIsReportedOnce }
{}

/// `Open`, `End`, `Copy` and `Propose`, and a step that does not apply, make no event. The `Commit` of a proposal makes its own
/// event exactly where it is admissible then, unless memory is refused; else its verdict is the first reason against it, and
/// nothing of the cluster changes.
pub fn commits_are_exact()
    ensures quiet { QuietStepsMakeNoEvent }
    ensures commits { CommitsAreExact }
{}

/// What a worker proposes is the choice of the cluster as it was at the worker's last `Copy` that was done, whatever steps came
/// between. Where it copies, proposes and commits with no other step between, the choice of the state before is made, and nothing
/// where there is none; where memory is refused to the commit, the choice still stands.
pub fn proposals_are_of_copies()
    ensures proposed { ProposalsAreOfCopies }
    ensures made { CopiedChoicesAreMade }
{}
