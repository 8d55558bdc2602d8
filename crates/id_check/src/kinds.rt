//! The kind of each row, found by its chain.

ghost use Rattle.std.specs.Prelude.{◌≡◌, ◌<◌, ◌≤◌, ◌+◌, ◌^◌, ◌⊎◌, ℕ, [], not, get_or};
ghost use Rattle.std.specs.Prelude.{length, IfOk};
ghost use Rattle.std.specs.Prelude.{IfSome, OnOk, Some, None};
ghost use Rattle.std.proofs.Props.{props};
ghost use Rattle.id_value.specs.List.{Among};
ghost use Rattle.id_table.specs.Lent.{list_of};
ghost use Rattle.id_table.specs.Tables.{HasPart};
ghost use Rattle.id_check.specs.Kinds as kinds;
ghost use Rattle.id_check.specs.Kinds.{AreKinds, Nowhere};
ghost use Rattle.id_check.specs.Chains as chains;
ghost use Rattle.id_check.specs.Chains.{IsGoing, IsFilling, IsState};

use crate::rows::{user_of, wide};
use id_table::{Node, Rows};
use id_tree::{BinaryOp, Constant, Kind, UnaryOp};
use std::alloc::{AllocError, Global};

/// Where the chain of a row goes on: it ends in a kind; it goes on to another row, or to an array, of whose elements it
/// has the kind; or it ends without a kind.
#[derive(Clone, Copy)]
pub enum Link {
    Fixed(Kind),
    To(u32),
    Within(u32),
    Nowhere,
}

/// A row through which a chain was followed, and whether it has the kind of the elements of the next one.
#[derive(Clone, Copy)]
pub struct Pass {
    pub row: usize,
    pub within: bool,
}

/// The rows of a program, lent, with the binders of their names.
#[derive(Clone, Copy)]
pub struct Bindings<'t> {
    pub rows: &'t Rows<'t>,
    pub binders: &'t [Option<u32>],
    pub ghost within: { (i b : ℕ) → i < length (list_of rows.now) → get_or binders.now i None ≡ Some b
        → b < length (list_of rows.now) } by { Prim.hlevel props },
}

/// The kind of each row, if it has one; these are the binders of the names.
#[inline(never)]
pub fn find_kinds(
    alloc: Global,
    rows: &Rows<'_>,
    binders: &[Option<u32>],
) -> Result<Vec<Option<Kind>>, AllocError>
    requires { (i b : ℕ) → i < length (list_of rows.now) → get_or binders.now i None ≡ Some b
        → b < length (list_of rows.now) }
    ensures long { IfOk result (λ v. length v.items ≡ length (list_of rows.now)) }
    ensures kinds { IfOk result (λ v.
        AreKinds (list_of rows.now) (λ i. get_or binders.now i None) (λ i. get_or v.items i None)) }
{
    let bindings = Bindings { rows, binders };
    let mut links = bindings.find_links(alloc)?;
    let mut passed = Vec::new(alloc);
    let mut kinds = Vec::with_capacity(alloc, rows.len())?;
    for i in 0..rows.len() {
        settle(&mut links, &mut passed, i)?;
        kinds.push(kind_of(links[i]))?;
    }
    Ok(kinds)
}

impl Bindings<'_> {
    /// Where the chain of each row goes on, or what it comes to, where that is known from the rows before.
    fn find_links(&self, alloc: Global) -> Result<Vec<Link>, AllocError>
        ensures { IfOk result (λ v. IsGoing
            (kinds.link_at (list_of self.now.rows.now) (λ k. get_or self.now.binders.now k None))
            (length (list_of self.now.rows.now)) 0 v.items) }
    {
        let mut links = Vec::with_capacity(alloc, self.rows.len())?;
        for i in 0..self.rows.len() {
            let link = self.link_at(i);
            links.push(follow(links.as_slice(), link))?;
        }
        Ok(links)
    }

    /// Where the chain of the row goes on.
    fn link_at(&self, i: usize) -> Link
        requires { i < length (list_of self.now.rows.now) }
        ensures { result ≡ kinds.link_at (list_of self.now.rows.now) (λ k. get_or self.now.binders.now k None) i }
    {
        let node = self.rows.at(i).node;
        link_of(self.binder_at(user_of(i, node)), node)
    }

    /// The binder of the name at the row, if it has one.
    fn binder_at(&self, i: usize) -> Option<usize>
        ensures { result ≡ get_or self.now.binders.now i None }
    {
        if i < self.binders.len() {
            wide(self.binders[i])
        } else {
            None
        }
    }
}

/// What the link comes to, if that is known from these rows, or the link itself. Takes no memory.
fn follow(links: &[Link], link: Link) -> Link
    ensures { (l : ℕ → Link) (i : ℕ) → l i ≡ link
        → ((j : ℕ) → j < length links.now → IsState l 0 j (get_or links.now j Nowhere))
        → IsState l 0 i result }
{
    let Some(end) = known_at(links, link) else {
        return link;
    };
    if is_within(link) {
        link_within(end)
    } else {
        end
    }
}

/// What the link behind this one comes to, if there is one and that is known from these rows. Takes no memory.
fn known_at(links: &[Link], link: Link) -> Option<Link>
    ensures { IfSome result (λ k. (j : ℕ) × (chains.goes_to link ≡ Some j) × (j < length links.now)
        × (k ≡ get_or links.now j Nowhere) × chains.IsEnd k) }
{
    let pass = next_of(link)?;
    if pass < links.len() && is_end(links[pass]) {
        Some(links[pass])
    } else {
        None
    }
}

/// The row to which the chain goes on behind the link.
fn next_of(link: Link) -> Option<usize>
    ensures { result ≡ chains.goes_to link }
{
    match link {
        Link::To(next) | Link::Within(next) => Some(next as usize),
        Link::Fixed(_) | Link::Nowhere => None,
    }
}

/// Whether a row with this link has the kind of the elements of the next one.
fn is_within(link: Link) -> bool
    ensures { (q : ℕ) → chains.goes_to link ≡ Some q → (r : ℕ)
        → link ≡ chains.link_of_pass (record { row = r; within = result }) q }
{
    matches!(link, Link::Within(_))
}

/// The link to the kind of what an element holds of an array whose chain ends at this link.
fn link_within(link: Link) -> Link
    ensures { result ≡ chains.link_within link }
{
    Link::Fixed(kind_of(link).unwrap_or(Kind::Int).element())
}

/// Whether the chain ends at the link.
fn is_end(link: Link) -> bool
    ensures { result ≡ not (chains.is_going_on link) }
{
    match link {
        Link::Fixed(_) | Link::Nowhere => true,
        Link::To(_) | Link::Within(_) => false,
    }
}

/// Finds the kind that the chain of the row comes to, and gives it to all rows on the way. A chain that comes back to
/// itself meets the mark that was left there, and gives `int`.
fn settle(links: &mut Vec<Link>, passed: &mut Vec<Pass>, start: usize) -> Result<(), AllocError>
    requires start { start < length links.old.items }
    requires passed { passed.old.items ≡ [] }
    requires targets { (i j : ℕ) → i < length links.old.items
        → chains.goes_to (get_or links.old.items i Nowhere) ≡ Some j → j < length links.old.items }
    ensures passed { OnOk result (passed.new.items ≡ []) }
    ensures long { OnOk result (length links.new.items ≡ length links.old.items) }
    ensures targets { OnOk result ((i j : ℕ) → i < length links.new.items
        → chains.goes_to (get_or links.new.items i Nowhere) ≡ Some j → j < length links.new.items) }
    ensures going { OnOk result ((l : ℕ → Link) → IsGoing l (length links.old.items) start links.old.items
        → IsGoing l (length links.old.items) (start + 1) links.new.items) }
{
    let mut at = start;
    while let Some(next) = next_of(links[at]) {
        passed.push(Pass {
            row: at,
            within: is_within(links[at]),
        })?;
        links[at] = Link::Fixed(Kind::Int);
        at = next;
    }
    let end = links[at];
    fill(links, passed, end);
    Ok(())
}

/// Gives the rows that were passed the links that follow from this one, at which the chain of the row behind them ends.
fn fill(links: &mut Vec<Link>, passed: &mut Vec<Pass>, end: Link)
    requires passed { (p : ℕ) → Among p (chains.rows_of passed.old.items) → p < length links.old.items }
    requires end { chains.IsEnd end }
    ensures passed { passed.new.items ≡ [] }
    ensures long { length links.new.items ≡ length links.old.items }
    ensures same { (i : ℕ) → chains.IsEnd (get_or links.new.items i Nowhere)
        ⊎ (get_or links.new.items i Nowhere ≡ get_or links.old.items i Nowhere) }
    ensures filling { (l : ℕ → Link) (n m q : ℕ) → IsFilling l n m passed.old.items q end links.old.items
        → (r : ℕ) × (k : Link) × IsFilling l n m [] r k links.new.items }
{
    let mut link = end;
    while let Some(pass) = passed.pop() {
        if pass.within {
            link = link_within(link);
        }
        links[pass.row] = link;
    }
}

/// The kind that the link gives, if its chain ends there.
fn kind_of(link: Link) -> Option<Kind>
    ensures { result ≡ chains.kind_of link }
{
    match link {
        Link::Fixed(kind) => Some(kind),
        Link::To(_) | Link::Within(_) | Link::Nowhere => None,
    }
}

/// Where the chain of a row goes on, which has this binder if it is about a name.
fn link_of(binder: Option<usize>, node: Node) -> Link
    requires binder { (b : ℕ) → binder ≡ Some b → b < 2 ^ 32 }
    requires parts { (a : ℕ) → HasPart node a → a < 2 ^ 32 }
    ensures { result ≡ kinds.link_of binder node }
{
    match node {
        Node::Param { kind, .. } => Link::Fixed(kind),
        Node::Literal { value } => Link::Fixed(constant_kind(value)),
        Node::Name { .. } | Node::NextUse { .. } | Node::Call { .. } => link_of_name(binder),
        Node::Unary { op, .. } => Link::Fixed(unary_kind(op)),
        Node::Binary { op, .. } => Link::Fixed(binary_kind(op)),
        Node::If { then, .. } => Link::To(then),
        Node::Block { body } => Link::To(body as u32),
        Node::Binding { value, .. } => Link::To(value as u32),
        Node::Next { outer, .. } => Link::To(outer),
        Node::Loop { last, .. } => Link::To(last),
        Node::Array { nested, .. } => Link::Fixed(Kind::of_array(nested)),
        Node::Fetch { target, .. } | Node::Address { target, .. } => Link::Within(target as u32),
        Node::Def { result, .. } => Link::Fixed(result),
        Node::Head | Node::Split { .. } | Node::Program => Link::Nowhere,
        Node::Enter { .. } | Node::Arg { .. } => Link::Nowhere,
        Node::Store { .. } => Link::Nowhere,
        Node::Carried { kind } => Link::Fixed(kind),
        Node::Within { .. } => Link::Fixed(Kind::Bool),
        Node::Index { .. } => Link::Fixed(Kind::Int),
        Node::Bounds { .. } | Node::Start | Node::LoopHead { .. } => Link::Nowhere,
        Node::Variable | Node::Entries | Node::Switches { .. } => Link::Nowhere,
        Node::Count | Node::Turn | Node::Body => Link::Nowhere,
        Node::Reset { .. } | Node::Span => Link::Nowhere,
    }
}

/// Where the chain of a name goes on: to its binder, if it has one.
fn link_of_name(binder: Option<usize>) -> Link
    requires { (b : ℕ) → binder ≡ Some b → b < 2 ^ 32 }
    ensures { result ≡ kinds.link_of_name binder }
{
    match binder {
        Some(binder) => Link::To(binder as u32),
        None => Link::Nowhere,
    }
}

/// The kind of a literal.
fn constant_kind(value: Constant) -> Kind
    ensures { result ≡ kinds.constant_kind value }
{
    match value {
        Constant::Int(_) => Kind::Int,
        Constant::Bool(_) => Kind::Bool,
    }
}

/// The kind of an operator before its operand, and of its operand.
pub fn unary_kind(op: UnaryOp) -> Kind
    ensures { result ≡ kinds.unary_kind op }
{
    match op {
        UnaryOp::Neg => Kind::Int,
        UnaryOp::Not => Kind::Bool,
    }
}

/// The kind of an operator between its operands.
fn binary_kind(op: BinaryOp) -> Kind
    ensures { result ≡ kinds.binary_kind op }
{
    match op {
        BinaryOp::Arithmetic(_) => Kind::Int,
        BinaryOp::Comparison(_) | BinaryOp::Logic(_) => Kind::Bool,
    }
}
