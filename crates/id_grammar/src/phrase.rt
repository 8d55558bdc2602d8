//! What the phrases of the grammar are told apart by.

/// The levels of operators, the loosest first. They group to the left, and of comparisons there is one.
#[derive(Clone, Copy)]
pub enum Level {
    Or,
    And,
    Comparison,
    Sum,
    Product,
}

/// What statements stand in.
#[derive(Clone, Copy)]
pub enum Scope {
    Block,
    Loop,
}
