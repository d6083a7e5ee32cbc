//! Laws of the definitions in `specs/`, for callers to cite. The functions do nothing.
ghost use Rattle.cap_narrow.specs.VectorLaws.{FitsNarrow, MaximumNarrow, UserLimitNarrow, ExchangedNarrow, TimesNarrow, RoundingNarrow, RoundingEndsInNone, FullnessNarrow, SameNarrow};
ghost use Rattle.cap_narrow.specs.ClusterLaws.{UsesNarrow, SightsNarrow, SightsShowNone, ReasonsNarrow, ChoicesNarrow};
ghost use Rattle.cap_narrow.specs.Steps.{RunsNarrow};
ghost use Rattle.cap_narrow.specs.Gpus.{TextsWithoutLeastGpus, TextsWithoutGpus, RefreshesAskNone, OpeningsHaveNone};
ghost use Rattle.cap_narrow.specs.Example.{OneGrantWithoutGpus, GuaranteesRaiseNone};

/// What is computed of vectors whose last amount is 0 is computed of their first amounts alone.
pub fn vectors_narrow()
    ensures fits { FitsNarrow }
    ensures maximum { MaximumNarrow }
    ensures user { UserLimitNarrow }
    ensures exchanged { ExchangedNarrow }
    ensures times { TimesNarrow }
    ensures rounded { RoundingNarrow }
    ensures stays { RoundingEndsInNone }
    ensures fullness { FullnessNarrow }
    ensures same { SameNarrow }
{}

/// What is used and seen of the first resources is the same without the last; and where a cluster has none of the last, none of
/// it is seen.
pub fn sights_narrow()
    ensures uses { UsesNarrow }
    ensures sights { SightsNarrow }
    ensures none { SightsShowNone }
{}

/// Where none of the last resource is seen, a proposal that asks for none is rejected for the same reason without that resource,
/// and the same is proposed.
pub fn choices_narrow()
    ensures reasons { ReasonsNarrow }
    ensures choices { ChoicesNarrow }
{}

/// A run whose calls ask for none of the last resource is a run without it, call by call and grant by grant.
pub fn runs_narrow()
    ensures { RunsNarrow }
{}

/// Settings whose least GPUs of a container are 0 raise no ask to any: a Refresh that reads such asks for none of the third
/// resource, and a cluster that opens with such has none. Each text makes such settings, if any, in which `yarn.io/gpu` doesn't
/// stand, or only the key of the least GPUs doesn't.
pub fn texts_ask_for_no_gpu()
    ensures least { TextsWithoutLeastGpus }
    ensures texts { TextsWithoutGpus }
    ensures refreshes { RefreshesAskNone }
    ensures openings { OpeningsHaveNone }
{}

/// A cluster of three resources with one grant is, without the third, the worked cluster of two with that grant.
pub fn one_grant_without_gpus_as_in_the_example()
    ensures { OneGrantWithoutGpus }
{}

/// Property lines that guarantee GPUs to a queue, and set no least of a container, raise no ask to any.
pub fn guarantees_raise_none_as_in_the_example()
    ensures { GuaranteesRaiseNone }
{}
