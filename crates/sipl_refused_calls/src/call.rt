// What came of a call that may be refused for memory, and that changes nothing then.
//
// A call returns whether all is right after it, or `None` where an allocation failed and all is as before:
// then it is made again. What a call returns is judged by a function that borrows it, and is dropped by a
// call. Each function owns one value at most, and does not end early while it does: so it is proved in a
// second or two.

// What came of a call that may have been made twice.
#[derive(Clone, Copy)]
pub(crate) enum Outcome {
    Right,
    RightAfterRefusal,
    Wrong,
}

// Of a call of which no allocation failed.
pub(crate) fn outcome_of(is_right: bool) -> Outcome {
    if is_right {
        return Outcome::Right;
    }
    Outcome::Wrong
}

// Of a call that is made again.
pub(crate) fn outcome_again(made: Option<bool>) -> Outcome {
    match made {
        Some(true) => Outcome::RightAfterRefusal,
        _ => Outcome::Wrong,
    }
}

// What a refusal with this code means, where all is as before or not.
pub(crate) fn refused(code: &str, is_as_before: bool) -> Option<bool> {
    if code == "Memory" && is_as_before {
        return None;
    }
    Some(false)
}
