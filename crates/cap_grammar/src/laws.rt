//! Laws of the grammar, for callers to cite. The functions do nothing.
ghost use Rattle.cap_grammar.specs.Laws.{RequestsHaveASpelling, RequestsHaveNoOther, NoTwoRequestsShareOne, NoRequestBeginsAnother, RequestsHaveOneVersion, TwoResourcesHaveVersionOne, TwoAmountsAreOfVersionOne, RepliesHaveASpelling, RepliesHaveNoOther, SharingRepliesAreAlike, AlikeRepliesShareOne, NothingIsLost, NoReplyIsAFault, NoTwoAnswersShareOne};

/// Every request under every head has a spelling in bytes, and one only; no two requests or heads share one, so none in one
/// version is one in the other, and none is a beginning of another's. About two resources there is version 1 alone.
pub fn requests_have_one_spelling()
    ensures some { RequestsHaveASpelling }
    ensures only { RequestsHaveNoOther }
    ensures apart { NoTwoRequestsShareOne }
    ensures whole { NoRequestBeginsAnother }
    ensures versions { RequestsHaveOneVersion }
    ensures two { TwoResourcesHaveVersionOne }
    ensures example { TwoAmountsAreOfVersionOne }
{}

/// Every reply to a request of a head and a kind has a spelling in bytes, and one only; two share one exactly where they
/// are the same or, in version 1, differ in amounts alone that it does not spell, and none is that of a fault. So of two
/// answers that `read_reply` may give no bytes say both.
pub fn replies_have_one_spelling()
    ensures some { RepliesHaveASpelling }
    ensures only { RepliesHaveNoOther }
    ensures apart { SharingRepliesAreAlike }
    ensures alike { AlikeRepliesShareOne }
    ensures whole { NothingIsLost }
    ensures fault { NoReplyIsAFault }
    ensures answers { NoTwoAnswersShareOne }
{}
