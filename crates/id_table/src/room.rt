//! About how much room the table of a program takes.

use id_tree::{Expr, Program};

/// About how many bytes of the text a row stands for, or a little less.
const ROW_BYTES: usize = 3;

/// About how many rows the program has, by where its last definition gives its value. No claim rests on it: a table
/// with more rows grows. Takes no memory.
pub fn about_rows(program: &Program) -> usize {
    match program.defs.as_slice().last() {
        Some(def) => value_place(&def.body) / ROW_BYTES,
        None => 0,
    }
}

/// About how many names the program has: one for each definition, and for each statement of the block that is its body.
/// No claim rests on it. Takes no memory.
pub fn about_names(program: &Program) -> usize {
    let mut names = 16usize;
    for def in program.defs.as_slice() {
        names = names
            .wrapping_add(1)
            .wrapping_add(statement_count(&def.body));
    }
    names
}

/// How many statements an expression has, where it is a block. Takes no memory.
fn statement_count(expr: &Expr) -> usize {
    match expr {
        Expr::Block { inside, .. } => inside.statements.as_slice().len(),
        _ => 0,
    }
}

/// Where an expression gives its value: a block in its body. Takes no memory.
fn value_place(expr: &Expr) -> usize {
    match expr {
        Expr::Block { inside, .. } => own_place(&inside.body),
        other => own_place(other),
    }
}

/// The place of an expression. Takes no memory.
fn own_place(expr: &Expr) -> usize {
    match expr {
        Expr::Literal { place, .. }
        | Expr::Unary { place, .. }
        | Expr::Binary { place, .. }
        | Expr::Name { place, .. }
        | Expr::If { place, .. }
        | Expr::Call { place, .. }
        | Expr::Block { place, .. }
        | Expr::Loop { place, .. }
        | Expr::For { place, .. }
        | Expr::Array { place, .. }
        | Expr::Fetch { place, .. } => *place as usize,
    }
}
