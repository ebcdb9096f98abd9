/// What becomes of held endpoints in the targets of a question (RFC 3263, 4.3).
#[derive(Clone, Copy, Debug, PartialEq, Eq, Hash)]
pub enum Held {
    /// They are left out. Where all endpoints are held, there are no targets.
    Out,
    /// They are tried last, after those that are not held.
    Last,
}
