//! Laws of the definitions in `specs/`, for callers to cite. The functions do nothing.
ghost use Rattle.cap_config.specs.Laws.{HasOneAnswer, QueuesAreLeast, QueuesAreNotTooDeep, RowsAreQueues, RowsAreFew, GuaranteeFitsMaximum, MaximumFitsParent, ChildrenFitParent, FaultsAreInLines, LinesAreFew, FaultsAreOfText, SettingsHaveAmounts};
ghost use Rattle.cap_config.specs.TreeLaws.{SettingsAreListed};

/// A text has a first fault or settings, and never both.
pub fn text_has_one_answer()
    ensures { HasOneAnswer }
{}

/// The queues are the least set of paths that has `root` and all that its members list.
pub fn queues_are_the_least_tree()
    ensures { QueuesAreLeast }
{}

/// The settings of a text without a fault have one row for each queue and none for another path, no queue is too deep, and
/// there are at most 1,024.
pub fn rows_are_the_queues()
    ensures levels { QueuesAreNotTooDeep }
    ensures rows { RowsAreQueues }
    ensures few { RowsAreFew }
{}

/// In a text without a fault each capacity fits its maximum, each maximum that of the queue above, and the capacities below
/// a queue other than `root` fit its own together.
pub fn capacities_fit()
    ensures guarantee { GuaranteeFitsMaximum }
    ensures maximum { MaximumFitsParent }
    ensures children { ChildrenFitParent }
{}

/// The settings of a text have the queues of a tree, on at most 16 levels and listed from `root`: no path twice, with each path all
/// its beginnings before a dot, and each queue before those under it.
pub fn settings_are_listed()
    ensures { SettingsAreListed }
{}

/// The line of a first fault is at most the number of the text's lines, and so at most that of its bytes. A first fault is never
/// want of memory.
pub fn faults_are_of_the_text()
    ensures lines { FaultsAreInLines }
    ensures few { LinesAreFew }
    ensures kinds { FaultsAreOfText }
{}

/// In the settings of a text each guarantee, each maximum that is there and both bounds of a container have an amount of each
/// resource.
pub fn settings_have_each_amount()
    ensures { SettingsHaveAmounts }
{}
