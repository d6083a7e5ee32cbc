//! The limits that the code tests, tied to the definitions. The function does nothing.
ghost use Rattle.std.specs.Prelude.{◌≡◌};
ghost use Rattle.cap_base.specs.Limits.{live_max, news_max, nodes_max, number_end};

use crate::replies::NEWS_MAX;
use crate::{LIVE_MAX, NODES_MAX, NUMBER_END};

/// The limits that the code tests are those of the definitions.
pub fn limits_are_the_definitions()
    ensures numbers { NUMBER_END ≡ number_end }
    ensures nodes { NODES_MAX ≡ nodes_max }
    ensures live { LIVE_MAX ≡ live_max }
    ensures news { NEWS_MAX ≡ news_max }
{}
