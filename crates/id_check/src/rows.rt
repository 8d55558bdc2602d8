//! What a row says of names.

ghost use Rattle.std.specs.Prelude.{◌≡◌};
ghost use Rattle.id_check.specs.Scopes as scopes;

use id_table::Node;

/// Whether names that are bound in the part are seen in the whole of it.
pub fn is_scope(node: Node) -> bool
    ensures { result ≡ scopes.is_scope node }
{
    matches!(
        node,
        Node::Block { .. } | Node::Body | Node::Span | Node::Def { .. } | Node::Program
    )
}

/// Whether the first part is one in which a binder like the second is seen; the span of a loop has the uses of its
/// first values too.
pub fn takes(scope: Node, binder: Node) -> bool
    ensures { result ≡ scopes.takes scope binder }
{
    match scope {
        Node::Block { .. } => matches!(binder, Node::Binding { .. }),
        Node::Body => matches!(
            binder,
            Node::Binding { .. } | Node::Next { .. } | Node::Index { .. }
        ),
        Node::Span => matches!(binder, Node::Next { .. } | Node::NextUse { .. }),
        Node::Def { .. } => matches!(binder, Node::Param { .. }),
        Node::Program => matches!(binder, Node::Def { .. }),
        _ => false,
    }
}

/// Whether the first part is the outermost one in which a binder like the second is seen.
pub fn closes(scope: Node, binder: Node) -> bool
    ensures { result ≡ scopes.closes scope binder }
{
    match scope {
        Node::Body => matches!(binder, Node::Binding { .. } | Node::Index { .. }),
        _ => takes(scope, binder),
    }
}

/// The name that a node binds, if it does.
pub fn bound_name(node: Node) -> Option<usize>
    ensures { result ≡ scopes.bound_name node }
{
    match node {
        Node::Param { name, .. } | Node::Binding { name, .. } | Node::Index { name } => Some(name),
        Node::Next { name, .. } | Node::Def { name, .. } => Some(name as usize),
        _ => None,
    }
}

/// Whether a row of this node sees what is bound in its own scope: it is neither a binder nor the use of a first value.
pub fn sees_own(node: Node) -> bool
    ensures { result ≡ scopes.sees_own node }
{
    !matches!(
        node,
        Node::Param { .. }
            | Node::Binding { .. }
            | Node::Next { .. }
            | Node::Index { .. }
            | Node::NextUse { .. }
            | Node::Def { .. }
    )
}

/// The row that uses the name which the row i of this node is about.
pub fn user_of(i: usize, node: Node) -> usize
    ensures { result ≡ scopes.user_of i node }
{
    match node {
        Node::Arg { enter, .. } => enter as usize,
        Node::Call { enter, .. } => enter,
        Node::Next { outer, .. } => outer as usize,
        _ => i,
    }
}

/// The row, as a number of a machine word.
pub fn wide(row: Option<u32>) -> Option<usize>
    ensures { result ≡ row }
{
    match row {
        Some(row) => Some(row as usize),
        None => None,
    }
}
