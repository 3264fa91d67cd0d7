//! Which of the standard streams are terminals.

/// Whether standard output and standard error are terminals.
#[derive(Clone, Copy)]
pub struct Terminals {
    pub output: bool,
    pub error: bool,
}
