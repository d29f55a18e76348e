//! What a search answers.

/// A valid node; or there is none; or the budget is spent.
#[derive(Drop)]
pub enum Answer<N> {
    Valid(N),
    Exhausted,
    Spent,
}
