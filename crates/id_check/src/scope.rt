//! The binder of each name: the scopes are passed innermost first. Each takes the binders within it that none has
//! closed yet, and gives the uses within it that wait for a name that it binds their binder. So a binder is looked at
//! by one scope, and a use once; a loop's variable and the use of its first value are met by the loop's body and by the
//! loop.
//!
//! Keeps: in a `Scopes`, which rows are held by a row that is passed, and which uses wait for a binder.

ghost use Rattle.std.specs.Prelude.{◌≡◌, ◌<◌, ◌≤◌, ◌+◌, ◌^◌, ℕ, true, false, get_or, length};
ghost use Rattle.std.specs.Prelude.{replicate, if◌then◌else◌};
ghost use Rattle.std.specs.Prelude.{IfOk, OnOk, None, Some, set};
ghost use Rattle.std.specs.Option.{option_or};
ghost use Rattle.std.proofs.Props.{props};
ghost use Rattle.id_table.specs.Lent.{list_of};
ghost use Rattle.id_table.specs.Rows.{at};
ghost use Rattle.id_check.specs.Scopes as scopes;
ghost use Rattle.id_check.specs.Scopes.{AreBinders, is_name};
ghost use Rattle.id_check.specs.Causes.{duplicates, repeated, second, seconds};
ghost use Rattle.id_check.specs.Firsts.{IsFirstOf, Notes};
ghost use Rattle.id_check.specs.Names as names;
ghost use Rattle.id_check.specs.Names.{AreHeld, AreTaken, AreWaiting, IsBehind, IsOpen, again, given, keys, newly};

use crate::cause::{CheckCause, note};
use crate::rows::{bound_name, closes, is_scope, sees_own, takes};
use id_table::{Node, Rows};
use std::alloc::{AllocError, Global};

/// The last scope that bound a name, and the first of its binders there.
#[derive(Clone, Copy)]
pub struct Bound {
    pub scope: u32,
    pub binder: u32,
}

/// The binders of the names, by row, and the first second binder.
#[derive(Drop)]
pub struct Found {
    pub binders: Vec<Option<u32>>,
    pub first: Option<CheckCause>,
}

/// The rows of a program, lent, and what is known of their names when so many of them are passed.
#[derive(Drop)]
pub struct Scopes<'t> {
    pub rows: &'t Rows<'t>,
    pub passed: usize,
    /// By row, whether a row that is passed is the outermost scope in which it is seen.
    pub held: Vec<bool>,
    /// By name, where it was bound last.
    pub bound: Vec<Option<Bound>>,
    /// By row, the binder, if it has one so far.
    pub binders: Vec<Option<u32>>,
    /// By key, the last use that waits: names of values have the even keys, those of procedures the odd ones.
    pub last: Vec<Option<u32>>,
    /// By row, the use of the same name before it that waits.
    pub earlier: Vec<Option<u32>>,
    /// The first second binder so far.
    pub first: Option<CheckCause>,
    pub ghost inside: { passed ≤ length (list_of rows.now) },
    pub ghost closed: { AreHeld (list_of rows.now) passed held.items } by { Prim.hlevel props },
    pub ghost named: { length bound.items ≡ length rows.now.table.now.names.items },
    pub ghost waiting: { AreWaiting (list_of rows.now) passed (keys (length rows.now.table.now.names.items))
        binders.items last.items earlier.items } by { Prim.hlevel props },
}

/// Finds the binders of the names.
#[inline(never)]
pub fn find_binders(alloc: Global, rows: &Rows<'_>) -> Result<Found, AllocError>
    ensures long { IfOk result (λ f. length f.binders.items ≡ length (list_of rows.now)) }
    ensures binders { IfOk result (λ f. AreBinders (list_of rows.now) (λ i. get_or f.binders.items i None)) }
    ensures within { IfOk result (λ f. (i b : ℕ) → i < length (list_of rows.now)
        → get_or f.binders.items i None ≡ Some b → b < length (list_of rows.now)) }
    ensures first { IfOk result (λ f. IsFirstOf f.first
        (duplicates (list_of rows.now) (length (list_of rows.now)))) }
{
    let mut scopes = Scopes::new(alloc, rows)?;
    let mut untaken = Vec::new(alloc);
    while scopes.passed < rows.len() {
        scopes.pass(&mut untaken)?;
    }
    let Scopes { binders, first, .. } = scopes;
    Ok(Found { binders, first })
}

impl<'t> Scopes<'t> {
    ghost use Rattle.id_check.specs.Passing as passing;
    ghost use Rattle.id_check.specs.Passing.{HasTaken, Keeps, Passes, Stays};

    /// No row is passed yet.
    fn new(alloc: Global, rows: &'t Rows<'t>) -> Result<Scopes<'t>, AllocError>
        ensures rows { IfOk result (λ p. p.rows.now ≡ rows.now) }
        ensures passed { IfOk result (λ p. p.passed ≡ 0) }
        ensures begun { IfOk result (λ p. HasTaken p 0) }
        ensures first { IfOk result (λ p. p.first ≡ None) }
    {
        let count = rows.len();
        let held = vec![in alloc; false; count]?;
        let bound: Vec<Option<Bound>> = vec![in alloc; None; rows.table.names.len()]?;
        let names = bound.len();
        let binders = nothing(alloc, count)?;
        let last = nothing(alloc, names + names)?;
        let earlier = nothing(alloc, count)?;
        Ok(Scopes {
            rows,
            passed: 0,
            held,
            bound,
            binders,
            last,
            earlier,
            first: None,
        })
    }

    /// Passes a row: where it is a scope, it takes the binders within it; where it binds a name, or is the use of a
    /// first value, it is yet to be taken; where it uses a name, it waits for its binder.
    fn pass(&mut self, untaken: &mut Vec<usize>) -> Result<(), AllocError>
        requires left { self.old.passed < length (passing.rows self.old) }
        requires begun { HasTaken self.old 0 }
        requires untaken { IsOpen (passing.rows self.old) self.old.passed self.old.passed untaken.old.items }
        ensures passes { OnOk result (Passes self.old self.new) }
        ensures begun { OnOk result (HasTaken self.new 0) }
        ensures untaken { OnOk result
            (IsOpen (passing.rows self.old) (self.old.passed + 1) (self.old.passed + 1) untaken.new.items) }
        ensures first { OnOk result
            (Notes self.old.first (seconds (passing.rows self.old) self.old.passed self.old.passed) self.new.first) }
    {
        let row = self.passed;
        let sees_own = sees_own(self.rows.at(row).node);
        self.take(untaken);
        if !sees_own {
            untaken.push(row)?;
        }
        Ok(())
    }

    /// Passes a row: where it is a scope, it takes the binders within it, and closes them; where it uses a name, it
    /// waits for its binder. Takes no memory.
    fn take(&mut self, untaken: &mut Vec<usize>)
        requires left { self.old.passed < length (passing.rows self.old) }
        requires begun { HasTaken self.old 0 }
        requires untaken { IsOpen (passing.rows self.old) self.old.passed self.old.passed untaken.old.items }
        ensures passes { Passes self.old self.new }
        ensures begun { HasTaken self.new 0 }
        ensures untaken { IsOpen (passing.rows self.old) self.old.passed (self.old.passed + 1) untaken.new.items }
        ensures first { Notes self.old.first
            (seconds (passing.rows self.old) self.old.passed self.old.passed) self.new.first }
    {
        if is_scope(self.rows.at(self.passed).node) {
            self.enter(untaken.as_slice());
            self.close(untaken.as_slice());
            let kept = kept(untaken.as_slice(), self.held.as_slice());
            untaken.truncate(kept);
        } else {
            self.wait();
        }
    }

    /// The scope that is passed next takes what it binds. Takes no memory.
    fn enter(&mut self, untaken: &[usize])
        requires begun { HasTaken self.old 0 }
        requires untaken { IsOpen (passing.rows self.old) self.old.passed self.old.passed untaken.now }
        ensures stays { Stays self.old self.new }
        ensures taken { HasTaken self.new self.new.passed }
        ensures first { Notes self.old.first
            (seconds (passing.rows self.old) self.old.passed self.old.passed) self.new.first }
    {
        let start = start_of(untaken, self.rows.at(self.passed).first as usize);
        for k in start..untaken.len() {
            self.enter_row(untaken[k]);
        }
    }

    /// Takes the row if it is a binder of the scope, and no scope within has closed it. Takes no memory.
    fn enter_row(&mut self, binder: usize)
        requires inside { binder < self.old.passed }
        requires behind { (at (passing.rows self.old) self.old.passed).first ≤ binder }
        requires taken { HasTaken self.old binder }
        ensures stays { Stays self.old self.new }
        ensures taken { HasTaken self.new (binder + 1) }
        ensures first { Notes self.old.first (second (passing.rows self.old) self.old.passed binder
            (scopes.bound_name (at (passing.rows self.old) binder).node)) self.new.first }
    {
        if !self.is_held(binder)
            && takes(self.rows.at(self.passed).node, self.rows.at(binder).node)
        {
            self.bind(binder);
        }
    }

    /// Binds the name of the row in the scope, if it binds one: its uses get their binder, or it is a second one. Takes
    /// no memory.
    fn bind(&mut self, binder: usize)
        requires { binder < self.old.passed }
        ensures stays { Stays self.old self.new }
        ensures bound { (x : ℕ) → x < length self.old.bound.items
            → names.in_scope self.old.passed (get_or self.new.bound.items x None)
            ≡ option_or (names.in_scope self.old.passed (get_or self.old.bound.items x None))
            (if is_name x (scopes.bound_name (at (passing.rows self.old) binder).node) then Some binder else None) }
        ensures later { (x t : ℕ) → self.old.passed < t → names.in_scope t (get_or self.old.bound.items x None) ≡ None
            → names.in_scope t (get_or self.new.bound.items x None) ≡ None }
        ensures binders { (i : ℕ) → i < length (passing.rows self.old) → get_or self.new.binders.items i None
            ≡ option_or (get_or self.old.binders.items i None)
            (newly (passing.rows self.old) self.old.passed binder self.old.bound.items
            (scopes.bound_name (at (passing.rows self.old) binder).node) i) }
        ensures first { Notes self.old.first
            (again (passing.rows self.old) self.old.passed binder self.old.bound.items
            (scopes.bound_name (at (passing.rows self.old) binder).node)) self.new.first }
    {
        let scope = self.passed;
        if let Some(name) = bound_name(self.rows.at(binder).node) {
            if let Some(earlier) = in_scope(scope, self.bound[name]) {
                note_second(&mut self.first, self.rows, binder, earlier);
            } else {
                self.bound[name] = Some(Bound {
                    scope: scope as u32,
                    binder: binder as u32,
                });
                if let Some(key) = sought(self.rows.at(scope).node, name) {
                    self.resolve(key, binder);
                }
            }
        }
    }

    /// Gives the uses of this key within the scope that wait for a binder this one. What is yet in its own scope and
    /// does not see that goes on waiting. Takes no memory.
    fn resolve(&mut self, key: usize, binder: usize)
        requires inside { binder < self.old.passed }
        requires key { key < passing.keys_of self.old }
        ensures keeps { Keeps self.old self.new }
        ensures binders { (i : ℕ) → i < length (passing.rows self.old) → get_or self.new.binders.items i None
            ≡ option_or (get_or self.old.binders.items i None)
            (given (passing.rows self.old) self.old.passed key binder i) }
    {
        let first = self.rows.at(self.passed).first as usize;
        let mut behind = None;
        while let Some(u) = not_before(first, self.use_before(key, behind)) {
            if self.is_outside(u as usize) {
                self.give(key, behind, u as usize, binder);
            } else {
                behind = Some(u);
            }
        }
    }

    /// Whether the row sees its own scope, or is out of it. Takes no memory.
    fn is_outside(&self, row: usize) -> bool
        requires { row < self.now.passed }
        ensures { result ≡ names.is_outside (passing.rows self.now) self.now.passed row }
    {
        sees_own(self.rows.at(row).node) || self.is_held(row)
    }

    /// Whether one of the rows that are passed holds the row. Takes no memory.
    fn is_held(&self, row: usize) -> bool
        requires { row < self.now.passed }
        ensures { result ≡ scopes.held (passing.rows self.now) row self.now.passed }
    {
        self.held[row]
    }

    /// The last use of this key that waits, before this one if there is one. Takes no memory.
    fn use_before(&self, key: usize, behind: Option<u32>) -> Option<u32>
        requires key { key < passing.keys_of self.now }
        requires behind { (l : ℕ) → behind ≡ Some l → l < self.now.passed }
        ensures { result ≡ names.use_before self.now.last.items self.now.earlier.items key behind }
    {
        match behind {
            Some(later) => self.earlier[later as usize],
            None => self.last[key],
        }
    }

    /// Gives the use this binder: it waits no more, and the one behind it, if there is one, comes after those before
    /// it. Takes no memory.
    fn give(&mut self, key: usize, behind: Option<u32>, user: usize, binder: usize)
        requires inside { binder < self.old.passed }
        requires key { key < passing.keys_of self.old }
        requires behind { IsBehind (passing.rows self.old) self.old.binders.items self.old.passed key behind }
        requires next { names.use_before self.old.last.items self.old.earlier.items key behind ≡ Some user }
        ensures keeps { Keeps self.old self.new }
        ensures binders { self.new.binders.items ≡ set self.old.binders.items user (Some binder) }
    {
        let earlier = self.earlier[user];
        self.binders[user] = Some(binder as u32);
        match behind {
            Some(later) => self.earlier[later as usize] = earlier,
            None => self.last[key] = earlier,
        }
    }

    /// Passes a scope that has taken what it binds: it closes the rows that are seen no further out. Takes no memory.
    fn close(&mut self, untaken: &[usize])
        requires left { self.old.passed < length (passing.rows self.old) }
        requires scope { scopes.is_scope (at (passing.rows self.old) self.old.passed).node ≡ true }
        requires taken { HasTaken self.old self.old.passed }
        requires untaken { IsOpen (passing.rows self.old) self.old.passed self.old.passed untaken.now }
        ensures passes { Passes self.old self.new }
        ensures begun { HasTaken self.new 0 }
        ensures first { self.new.first ≡ self.old.first }
    {
        let scope = self.passed;
        close_rows(self.rows, untaken, &mut self.held, scope);
        self.passed = scope + 1;
    }

    /// Passes a row that is no scope: it waits for its binder, if it uses a name. Takes no memory.
    fn wait(&mut self)
        requires left { self.old.passed < length (passing.rows self.old) }
        requires scope { scopes.is_scope (at (passing.rows self.old) self.old.passed).node ≡ false }
        requires begun { HasTaken self.old 0 }
        ensures passes { Passes self.old self.new }
        ensures begun { HasTaken self.new 0 }
        ensures first { self.new.first ≡ self.old.first }
    {
        let row = self.passed;
        self.passed = row + 1;
        if let Some(key) = key_of(self.rows.at(row).node) {
            self.earlier[row] = self.last[key];
            self.last[key] = Some(row as u32);
        }
    }
}

/// A list of so many rows or keys that have no row.
fn nothing(alloc: Global, count: usize) -> Result<Vec<Option<u32>>, AllocError>
    ensures { IfOk result (λ v. v.items ≡ replicate count None) }
{
    vec![in alloc; None; count]
}

/// Notes a second binder, behind this earlier one. Takes no memory.
fn note_second(first: &mut Option<CheckCause>, rows: &Rows<'_>, binder: usize, earlier: usize)
    ensures { Notes first.old (repeated (list_of rows.now) binder (Some earlier)) first.new }
{
    let (at, earlier) = (
        rows.at(binder).place as usize,
        rows.at(earlier).place as usize,
    );
    note(first, CheckCause::Duplicate { at, first: earlier });
}

/// Closes the rows that are seen no further out than in the scope. Takes no memory.
fn close_rows(rows: &Rows<'_>, untaken: &[usize], held: &mut Vec<bool>, scope: usize)
    requires inside { scope ≤ length (list_of rows.now) }
    requires untaken { IsOpen (list_of rows.now) scope scope untaken.now }
    requires held { AreHeld (list_of rows.now) scope held.old.items }
    ensures { AreHeld (list_of rows.now) (scope + 1) held.new.items }
{
    let start = start_of(untaken, rows.at(scope).first as usize);
    for k in start..untaken.len() {
        close_row(rows, held, scope, untaken[k]);
    }
}

/// Closes the row if it is seen no further out than in the scope. Takes no memory.
fn close_row(rows: &Rows<'_>, held: &mut Vec<bool>, scope: usize, binder: usize)
    requires within { scope ≤ length (list_of rows.now) }
    requires inside { binder < scope }
    requires behind { (at (list_of rows.now) scope).first ≤ binder }
    requires taken { AreTaken (list_of rows.now) scope binder held.old.items }
    ensures { AreTaken (list_of rows.now) scope (binder + 1) held.new.items }
{
    if closes(rows.at(scope).node, rows.at(binder).node) {
        held[binder] = true;
    }
}

/// Where the rows from this one on begin in the list, which is in order. Takes no memory.
fn start_of(untaken: &[usize], first: usize) -> usize
    requires order { (j k : ℕ) → j < k → k < length untaken.now
        → get_or untaken.now j 0 < get_or untaken.now k 0 }
    ensures long { result ≤ length untaken.now }
    ensures before { (j : ℕ) → j < result → get_or untaken.now j 0 < first }
    ensures behind { (j : ℕ) → result ≤ j → j < length untaken.now → first ≤ get_or untaken.now j 0 }
{
    let mut start = untaken.len();
    while start > 0 && untaken[start - 1] >= first {
        start -= 1;
    }
    start
}

/// How many rows there are without the last ones that are held. Takes no memory.
fn kept(untaken: &[usize], held: &[bool]) -> usize
    requires { (j : ℕ) → j < length untaken.now → get_or untaken.now j 0 < length held.now }
    ensures long { result ≤ length untaken.now }
    ensures behind { (j : ℕ) → result ≤ j → j < length untaken.now
        → get_or held.now (get_or untaken.now j 0) false ≡ true }
{
    let mut kept = untaken.len();
    while kept > 0 && held[untaken[kept - 1]] {
        kept -= 1;
    }
    kept
}

/// The use, if it is not before this row.
fn not_before(first: usize, last: Option<u32>) -> Option<u32>
    ensures { result ≡ names.not_before first last }
{
    match last {
        Some(u) if first <= u as usize => Some(u),
        _ => None,
    }
}

/// The binder that was noted, if it is of the scope.
fn in_scope(scope: usize, bound: Option<Bound>) -> Option<usize>
    ensures { result ≡ names.in_scope scope bound }
{
    match bound {
        Some(bound) if bound.scope as usize == scope => Some(bound.binder as usize),
        _ => None,
    }
}

/// The key by which the use of a name waits.
fn key_of(node: Node) -> Option<usize>
    requires { (k : ℕ) → names.key_of node ≡ Some k → k < 2 ^ 64 }
    ensures { result ≡ names.key_of node }
{
    match node {
        Node::Name { name } | Node::NextUse { name } => Some(name + name),
        Node::Enter { name } => Some(name + name + 1),
        _ => None,
    }
}

/// The key of the uses of the name that look for their binder in a part of this node.
fn sought(scope: Node, name: usize) -> Option<usize>
    requires { keys name + 1 < 2 ^ 64 }
    ensures { result ≡ names.sought scope name }
{
    match scope {
        Node::Block { .. } | Node::Body | Node::Span | Node::Def { .. } => Some(name + name),
        Node::Program => Some(name + name + 1),
        _ => None,
    }
}
