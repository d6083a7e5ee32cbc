//! Laws of the choice, for callers to cite. The function does nothing.
ghost use Rattle.cap_choice.specs.Unique.{ChoiceFromIsUnique, NodeChoiceIsUnique};

/// Two choices on one node are the same, and so are two choices from one starting node.
pub fn choice_is_unique()
    ensures node { NodeChoiceIsUnique }
    ensures ring { ChoiceFromIsUnique }
{}
