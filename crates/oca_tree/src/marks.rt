//! What a tree marks of its objects.

/// How many objects are locked, and where one was found last. It is handed down to what locks and what looks.
#[derive(Clone, Copy)]
pub(crate) struct Marks {
    /// How many of the objects are locked.
    pub locks: usize,
    /// Where the object of a command was found last: it is looked at first.
    pub recent: usize,
}
