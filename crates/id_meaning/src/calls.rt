//! What follows by the rules of calls (docs/MEANING.md, "Rules").

ghost use Rattle.std.specs.Prelude.{◌≡◌, ◌++◌, Some, OnOk};
ghost use Rattle.id_meaning.specs.Effects.{all_passed, all_passes, body_in, call_at, call_by, callee_of};
ghost use Rattle.id_meaning.specs.Effects.{entered, entered_by, param_haves, param_row, pass_by, pass_of, passed_of};

use crate::given::add_seen;
use crate::rules::{Lookup, Rules};
use id_check::Checked;
use id_facts::{Cells, Point, RowFact, RowValue, Trail, add_values};
use id_source::{binder_of, node_of};
use id_table::Node;
use std::alloc::AllocError;

/// A call that is On.
#[derive(Clone, Copy)]
pub struct OnCall {
    /// The row of its `Enter`.
    pub enter: usize,
    /// The path on which its callee is.
    pub path: Trail,
    /// The rows of the callee's head and body.
    pub head: usize,
    pub body: usize,
}

impl Rules<'_> {
    /// Adds the facts that come by the call at the row at the path, if it is On.
    pub fn add_call(
        &self,
        found: &mut Vec<RowFact>,
        lookup: &Lookup<'_>,
        point: Point,
    ) -> Result<(), AllocError>
        ensures { OnOk result (found.new.items ≡ found.old.items
            ++ call_at self.now.checked.now self.now.links.now lookup.now.cells.now lookup.now.followed point.path
            point.row) }
    {
        match entered(self.checked, lookup.cells, point.path, point.row) {
            Some(call) => self.add_called(found, lookup, point, call),
            None => Ok(()),
        }
    }

    /// Adds the facts that come by this call at the row at the path, which is On.
    fn add_called(
        &self,
        found: &mut Vec<RowFact>,
        lookup: &Lookup<'_>,
        point: Point,
        call: OnCall,
    ) -> Result<(), AllocError>
        ensures { OnOk result (found.new.items ≡ found.old.items
            ++ call_by self.now.checked.now self.now.links.now lookup.now.cells.now lookup.now.followed point.path
            point.row (Some call)) }
    {
        let body = call.body;
        found.push(RowFact::On {
            path: call.path,
            row: body,
        })?;
        add_seen(found, lookup, point, call.path, Some(body))?;
        let rows = self.links.args.of(call.enter);
        self.add_all_passed(found, lookup, point.path, call, rows)
    }

    /// Adds the facts that come by the arguments of the call at these rows.
    fn add_all_passed(
        &self,
        found: &mut Vec<RowFact>,
        lookup: &Lookup<'_>,
        path: Trail,
        call: OnCall,
        rows: &[usize],
    ) -> Result<(), AllocError>
        ensures { OnOk result (found.new.items ≡ found.old.items
            ++ all_passed self.now.checked.now lookup.now.cells.now lookup.now.followed path call rows.now) }
    {
        for row in rows {
            self.add_passed(found, lookup, path, call, node_of(self.checked, *row))?;
        }
        Ok(())
    }

    /// Adds the facts that come by a row of this node, if it is an argument of the call.
    fn add_passed(
        &self,
        found: &mut Vec<RowFact>,
        lookup: &Lookup<'_>,
        path: Trail,
        call: OnCall,
        node: Node,
    ) -> Result<(), AllocError>
        ensures { OnOk result (found.new.items ≡ found.old.items
            ++ passed_of self.now.checked.now lookup.now.cells.now lookup.now.followed path call node) }
    {
        match node {
            Node::Arg {
                enter,
                index,
                value,
            } if enter as usize == call.enter => {
                let value = value as usize;
                found.push(RowFact::On { path, row: value })?;
                let values = lookup.values(path, value)?;
                let param = param_row(self.checked.table.rows.len(), call.head, index as usize);
                add_param(found, call.path, param, values.as_slice())
            }
            _ => Ok(()),
        }
    }

    /// Adds the facts that come where the row Has the value, by a row of this node that reads it, if that is an
    /// argument of calls that are On.
    pub fn add_pass(
        &self,
        found: &mut Vec<RowFact>,
        point: Point,
        value: RowValue,
        node: Node,
    ) -> Result<(), AllocError>
        ensures { OnOk result (found.new.items ≡ found.old.items
            ++ pass_of self.now.checked.now self.now.links.now self.now.cells.now point.path point.row value node) }
    {
        match node {
            Node::Arg {
                enter,
                index,
                value: read,
            } if read as usize == point.row => {
                let rows = self.links.reads.of(enter as usize);
                let enter = Point {
                    path: point.path,
                    row: enter as usize,
                };
                self.add_all_passes(found, enter, value, index as usize, rows)
            }
            _ => Ok(()),
        }
    }

    /// Adds that the parameter of this index Has the value, in each of the calls of the `Enter` at these rows that is
    /// On at its path.
    fn add_all_passes(
        &self,
        found: &mut Vec<RowFact>,
        enter: Point,
        value: RowValue,
        index: usize,
        rows: &[usize],
    ) -> Result<(), AllocError>
        ensures { OnOk result (found.new.items ≡ found.old.items
            ++ all_passes self.now.checked.now self.now.cells.now enter.path value enter.row index rows.now) }
    {
        for row in rows {
            let call = entered(self.checked, self.cells, enter.path, *row);
            add_pass_by(found, self.checked, enter.row, index, value, call)?;
        }
        Ok(())
    }
}

/// The call at the row at the path, if it is On.
fn entered(checked: &Checked, cells: &Cells, path: Trail, row: usize) -> Option<OnCall>
    ensures { result ≡ entered checked.now cells.now path row }
{
    match node_of(checked, row) {
        Node::Call { enter, .. } => {
            entered_by(enter, cells.find(path, row), callee(checked, enter))
        }
        _ => None,
    }
}

/// The call of this `Enter` that is On by the fact of this number, where its procedure has this node.
fn entered_by(enter: usize, spot: Option<usize>, callee: Node) -> Option<OnCall>
    ensures { result ≡ entered_by enter spot callee }
{
    match (spot, callee) {
        (Some(spot), Node::Def { head, body, .. }) => Some(OnCall {
            enter,
            path: Trail::Below { spot, number: 0 },
            head: head as usize,
            body: body as usize,
        }),
        _ => None,
    }
}

/// What stands where the `Enter` at the row has its binder.
fn callee(checked: &Checked, enter: usize) -> Node
    ensures { result ≡ callee_of checked.now enter }
{
    match binder_of(checked, enter) {
        Some(row) => node_of(checked, row),
        None => Node::Head,
    }
}

/// The body of the procedure where the `Enter` at the row has its binder, if it is one.
pub fn body_called(checked: &Checked, enter: usize) -> Option<usize>
    ensures { result ≡ body_in (callee_of checked.now enter) }
{
    match callee(checked, enter) {
        Node::Def { body, .. } => Some(body as usize),
        _ => None,
    }
}

/// Adds that the parameter at the row Has these values at the path, if there is one.
fn add_param(
    found: &mut Vec<RowFact>,
    path: Trail,
    row: Option<usize>,
    values: &[RowValue],
) -> Result<(), AllocError>
    ensures { OnOk result (found.new.items ≡ found.old.items
        ++ param_haves path row values.now) }
{
    match row {
        Some(row) => add_values(found, path, row, values),
        None => Ok(()),
    }
}

/// The row of the parameter of this index, behind its head, if there are so many rows.
fn param_row(count: usize, head: usize, index: usize) -> Option<usize>
    ensures { result ≡ param_row count head index }
{
    if head < count && index < count - head - 1 {
        Some(head + 1 + index)
    } else {
        None
    }
}

/// Adds that the parameter of this index Has the value in the call, if it is On and of the `Enter`.
fn add_pass_by(
    found: &mut Vec<RowFact>,
    checked: &Checked,
    enter: usize,
    index: usize,
    value: RowValue,
    call: Option<OnCall>,
) -> Result<(), AllocError>
    ensures { OnOk result (found.new.items ≡ found.old.items
        ++ pass_by checked.now enter index value call) }
{
    match call {
        Some(call) if call.enter == enter => {
            let param = param_row(checked.table.rows.len(), call.head, index);
            add_param(found, call.path, param, &[value])
        }
        _ => Ok(()),
    }
}
