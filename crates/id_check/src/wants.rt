//! What is wrong in each row: names without binder, parts of another kind than is wanted, numbers of arguments, and
//! parameters. Nothing here takes memory.

ghost use Rattle.std.specs.Prelude.{◌≡◌, ℕ, [], ◌∷◌, get_or, length, None};
ghost use Rattle.id_table.specs.Rows.{at};
ghost use Rattle.id_table.specs.Turns.{IsDefOf, params_at};
ghost use Rattle.id_check.specs.Causes as causes;
ghost use Rattle.id_check.specs.Causes.{callee, causes_below, causes_in, unknown, wrong, wrong_argument, wrong_both};
ghost use Rattle.id_check.specs.Causes.{unless_array, wrong_cell, wrong_count, wrong_like};
ghost use Rattle.id_check.specs.declared.cause.CheckCause.TheVariants.{WrongKind};
ghost use Rattle.id_value.specs.Kinds.{same_kind};
ghost use Rattle.id_check.specs.Causes.{wrong_equals, wrong_operands, wrong_params};
ghost use Rattle.id_value.specs.declared.BinaryOp.TheVariants as class;
ghost use Rattle.id_check.specs.Firsts.{Notes};
ghost use Rattle.id_check.specs.Scopes.{user_of};
ghost use Rattle.id_check.specs.Params.{array_cause, count_cause};
ghost use Rattle.id_check.specs.Typed.{binder, kind, rows};
ghost use Rattle.id_check.specs.Wants.{wrong_parts};

use crate::cause::{CheckCause, note};
use crate::kinds::unary_kind;
use crate::params::{MAX_PARAMS, first_array, has_param, has_params};
use crate::typed::Typed;
use id_table::Node;
use id_tree::{BinaryOp, Kind};
use id_value::Comparison;

impl Typed<'_> {
    /// Notes what is wrong in the rows.
    #[inline(never)]
    pub fn note_rows(&self, first: &mut Option<CheckCause>)
        ensures { Notes first.old
            (causes_below (rows self.now) (binder self.now) (kind self.now) (length (rows self.now))) first.new }
    {
        for i in 0..self.rows.len() {
            self.note_row(first, i);
        }
    }

    /// Notes what is wrong in a row.
    fn note_row(&self, first: &mut Option<CheckCause>, i: usize)
        ensures { let row = at (rows self.now) i in Notes first.old
            (causes_in (rows self.now) (kind self.now) (binder self.now (user_of i row.node)) row.place row.node)
            first.new }
    {
        let row = self.rows.at(i);
        match row.node {
            Node::Name { .. } => note_unknown(first, self.binder(i), row.place as usize),
            Node::Enter { .. } => note_unknown(first, self.binder(i), row.place as usize),
            Node::NextUse { .. } => note_unknown(first, self.binder(i), row.place as usize),
            Node::Arg {
                enter,
                index,
                value,
            } => self.note_argument(first, enter, index, value),
            Node::Call { enter, count } => self.note_call(first, enter, count, row.place as usize),
            Node::Def {
                name,
                head,
                result: wanted,
                body,
            } => {
                self.note_wrong(first, wanted, body as usize);
                self.note_params(first, head, name, row.place as usize);
            }
            _ => self.note_parts(first, row.node),
        }
    }

    /// Notes the parts of a row of this node that are wrong, if it is about no name.
    #[inline(always)]
    fn note_parts(&self, first: &mut Option<CheckCause>, node: Node)
        ensures { Notes first.old (wrong_parts (rows self.now) (kind self.now) node) first.new }
    {
        match node {
            Node::Unary { op, operand } => self.note_wrong(first, unary_kind(op), operand),
            Node::Binary { op, left, right } => self.note_operands(first, op, left, right),
            Node::Split { test } => self.note_wrong(first, Kind::Bool, test),
            Node::Switches { test } => self.note_wrong(first, Kind::Bool, test),
            Node::Next { outer, value, .. } => {
                self.note_like(first, self.kind(outer as usize), value as usize)
            }
            Node::Array { low, high, .. } | Node::Bounds { low, high } => {
                self.note_both(first, Kind::Int, low, high)
            }
            Node::Fetch { target, index } => self.note_cell(first, target, index),
            Node::Address { target, index } => self.note_cell(first, target, index),
            Node::Store { address, value } => self.note_like(first, self.kind(address), value),
            Node::If {
                then,
                otherwise,
                ..
            } => self.note_like(first, self.kind(then as usize), otherwise as usize),
            _ => {}
        }
    }

    /// Notes it if a call at this place has another number of arguments than its procedure has parameters.
    fn note_call(&self, first: &mut Option<CheckCause>, enter: usize, count: usize, place: usize)
        ensures { Notes first.old
            (wrong_count (rows self.now) (callee (rows self.now) (binder self.now enter)) count place) first.new }
    {
        if let Some(head) = self.callee(enter) {
            if !has_params(self.rows, head as usize, count) {
                note(first, CheckCause::WrongCount { at: place });
            }
        }
    }

    /// Notes the argument of this index in the call with this `Enter`, if it is of another kind than the parameter of
    /// that index, and the call has as many arguments as its procedure has parameters.
    fn note_argument(&self, first: &mut Option<CheckCause>, enter: u32, index: u32, value: u32)
        ensures { Notes first.old
            (wrong_argument (rows self.now) (kind self.now) (callee (rows self.now) (binder self.now enter))
            (get_or self.now.counts.now enter None) index value) first.new }
    {
        if let Some(head) = self.callee(enter as usize) {
            if self.is_count(head as usize, self.count(enter as usize)) {
                let wanted = self.kind(head as usize + 1 + index as usize);
                self.note_like(first, wanted, value as usize);
            }
        }
    }

    /// Whether this is the number of the parameters of the procedure with this head.
    fn is_count(&self, head: usize, count: Option<usize>) -> bool
        requires { (n : ℕ) × IsDefOf (rows self.now) n head }
        ensures { result ≡ causes.is_count (rows self.now) head count }
    {
        match count {
            Some(count) => has_params(self.rows, head, count),
            None => false,
        }
    }

    /// Notes the row if it is of another kind than this, if there is one.
    fn note_like(&self, first: &mut Option<CheckCause>, wanted: Option<Kind>, i: usize)
        ensures { Notes first.old (wrong_like (rows self.now) (kind self.now) wanted i) first.new }
    {
        if let Some(wanted) = wanted {
            self.note_wrong(first, wanted, i);
        }
    }

    /// Notes the operands of an operator that are wrong.
    fn note_operands(&self, first: &mut Option<CheckCause>, op: BinaryOp, left: usize, right: usize)
        ensures { Notes first.old (wrong_operands (rows self.now) (kind self.now) op left right) first.new }
    {
        match op {
            BinaryOp::Arithmetic(_) => self.note_both(first, Kind::Int, left, right),
            BinaryOp::Comparison(op) => self.note_compared(first, op, left, right),
            BinaryOp::Logic(_) => self.note_both(first, Kind::Bool, left, right),
        }
    }

    /// Notes the operands of a comparison that are wrong.
    fn note_compared(
        &self,
        first: &mut Option<CheckCause>,
        op: Comparison,
        left: usize,
        right: usize,
    )
        ensures { Notes first.old
            (wrong_operands (rows self.now) (kind self.now) (class.Comparison op) left right) first.new }
    {
        match op {
            Comparison::Eq | Comparison::Ne => self.note_equals(first, left, right),
            Comparison::Lt | Comparison::Le | Comparison::Gt | Comparison::Ge => {
                self.note_both(first, Kind::Int, left, right);
            }
        }
    }

    /// Notes the operands that are wrong to be compared: the left one's kind is wanted of the right one, and is no
    /// array.
    fn note_equals(&self, first: &mut Option<CheckCause>, left: usize, right: usize)
        ensures { Notes first.old
            (wrong_equals (rows self.now) (kind self.now) (kind self.now left) left right) first.new }
    {
        match self.kind(left) {
            None => {}
            Some(Kind::Int) => self.note_wrong(first, Kind::Int, right),
            Some(Kind::Bool) => self.note_wrong(first, Kind::Bool, right),
            Some(Kind::Array) => self.note_found(first, Kind::Int, Kind::Array, left),
            Some(Kind::Nested) => self.note_found(first, Kind::Int, Kind::Nested, left),
        }
    }

    /// Notes the target and the index of a fetch or a store that are wrong.
    fn note_cell(&self, first: &mut Option<CheckCause>, target: usize, index: usize)
        ensures { Notes first.old (wrong_cell (rows self.now) (kind self.now) target index) first.new }
    {
        self.note_target(first, target);
        self.note_wrong(first, Kind::Int, index);
    }

    /// Notes the row if it is no array.
    fn note_target(&self, first: &mut Option<CheckCause>, i: usize)
        ensures { Notes first.old (unless_array (kind self.now i) (at (rows self.now) i).place) first.new }
    {
        if let Some(found) = self.kind(i) {
            if !found.is_array() {
                self.note_found(first, Kind::Array, found, i);
            }
        }
    }

    /// Notes the operands that are wrong, where one kind is wanted of both.
    fn note_both(&self, first: &mut Option<CheckCause>, wanted: Kind, left: usize, right: usize)
        ensures { Notes first.old (wrong_both (rows self.now) (kind self.now) wanted left right) first.new }
    {
        self.note_wrong(first, wanted, left);
        self.note_wrong(first, wanted, right);
    }

    /// Notes the row if it is of another kind than this.
    fn note_wrong(&self, first: &mut Option<CheckCause>, wanted: Kind, i: usize)
        ensures { Notes first.old (wrong (rows self.now) (kind self.now) wanted i) first.new }
    {
        if let Some(found) = self.kind(i) {
            if !is_same(found, wanted) {
                self.note_found(first, wanted, found, i);
            }
        }
    }

    /// Notes that the row is of another kind than is wanted.
    fn note_found(&self, first: &mut Option<CheckCause>, wanted: Kind, found: Kind, i: usize)
        ensures { Notes first.old (WrongKind (at (rows self.now) i).place wanted found ∷ []) first.new }
    {
        let at = self.place(i);
        note(first, CheckCause::WrongKind { at, wanted, found });
    }

    /// Notes what is wrong with the parameters of a definition at this place: `main`, the name of number 0, takes no
    /// array, and there are at most 16.
    fn note_params(&self, first: &mut Option<CheckCause>, head: u32, name: u32, place: usize)
        requires { (n : ℕ) × IsDefOf (rows self.now) n head }
        ensures { Notes first.old
            (wrong_params (rows self.now) name place (params_at (rows self.now) head)) first.new }
    {
        let head = head as usize;
        if name == 0 {
            note_array(first, first_array(self.rows, head));
        }
        note_many(first, has_param(self.rows, head, MAX_PARAMS), place);
    }
}

/// Notes a name without binder.
fn note_unknown(first: &mut Option<CheckCause>, binder: Option<usize>, place: usize)
    ensures { Notes first.old (unknown binder place) first.new }
{
    if binder.is_none() {
        note(first, CheckCause::Unknown { at: place });
    }
}

/// Whether the two kinds are one.
fn is_same(found: Kind, wanted: Kind) -> bool
    ensures { result ≡ same_kind found wanted }
{
    match (found, wanted) {
        (Kind::Int, Kind::Int) => true,
        (Kind::Bool, Kind::Bool) => true,
        (Kind::Array, Kind::Array) => true,
        (Kind::Nested, Kind::Nested) => true,
        _ => false,
    }
}

/// Notes it if the definition at this place has too many parameters.
fn note_many(first: &mut Option<CheckCause>, many: bool, place: usize)
    ensures { Notes first.old (count_cause many place) first.new }
{
    if many {
        note(first, CheckCause::TooManyParams { at: place });
    }
}

/// Notes the first parameter that is an array, if there is one.
fn note_array(first: &mut Option<CheckCause>, array: Option<u32>)
    ensures { Notes first.old (array_cause array) first.new }
{
    if let Some(at) = array {
        note(first, CheckCause::MainKind { at: at as usize });
    }
}
