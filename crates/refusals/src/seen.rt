//! What was seen of a call.

/// What a call that takes memory did.
#[derive(Clone, Copy)]
pub(crate) enum Seen {
    /// It got its memory, and did what it should.
    Given,
    /// It was refused; the state after that is right, and so is what the same call did next.
    Refused,
    /// It was refused twice, and the state after that is right.
    RefusedTwice,
    /// Memory was refused before the call.
    Before,
    /// The state, or the answer, isn't right.
    Wrong,
}

impl Seen {
    /// The exit status that reports it.
    pub(crate) fn status(self) -> u8 {
        match self {
            Seen::Given => 0,
            Seen::Wrong => 1,
            Seen::Before => 10,
            Seen::Refused => 11,
            Seen::RefusedTwice => 12,
        }
    }

    /// What is seen of a call that is made a second time if the first was refused. `None` is a refusal; the others say whether all is
    /// right.
    pub(crate) fn of_two(first: Option<bool>, second: Option<bool>) -> Seen {
        match (first, second) {
            (Some(true), _) => Seen::Given,
            (None, Some(true)) => Seen::Refused,
            (None, None) => Seen::RefusedTwice,
            _ => Seen::Wrong,
        }
    }

    /// What is seen if all is right at the end.
    pub(crate) fn of_refusal(refused: bool) -> Seen {
        if refused { Seen::Refused } else { Seen::Given }
    }
}
