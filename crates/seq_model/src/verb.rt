//! What goes on with a list that has stopped.

/// What is done with a list that has stopped.
#[derive(Clone, Copy, Debug, PartialEq, Eq)]
pub enum Action {
    Continue,
    Skip,
    Abort,
    Quit,
    EditTodo,
}
