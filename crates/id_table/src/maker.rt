//! The maker of the table: the row of each form, behind those of its parts.

ghost use Rattle.std.specs.Prelude.{◌≡◌, ◌+◌, ◌∷◌, [], codes, length, true, IfOk, OnOk};
ghost use Rattle.id_grammar.specs.Tree.{literal, name as name_tree, params_tree};
ghost use Rattle.id_table.specs.Names.{number_of, with_name};
ghost use Rattle.id_table.specs.Rows.{arm, in_top, value_of, with_row, add, naming};
ghost use Rattle.id_table.specs.Rows.{add_entries, add_variables, arm_at, begin_counting, begin_for, begin_loop, carry};
ghost use Rattle.id_table.specs.Rows.{end_loop, enter_loop, last, size};
ghost use Rattle.id_table.specs.declared.row.Node.TheVariants as variant;
ghost use Rattle.id_table.specs.declared.row.Node.TheVariants.{Variable, If, Arg, Next, NextUse, Enter, Turn};
ghost use Rattle.id_table.specs.Texts.{texts};
ghost use Rattle.id_table.specs.Making.{parts, stmts_tree, IsAdded, IsStart};

use crate::names::main_alone;
use crate::node::{arg_node, def_node, if_node, in_arm, next_node, short, stand_in};
use crate::row::{Node, Row, Stand};
use crate::spelled::Spelled;
use id_grammar::{Def, Param, Stmt};
use id_text::Identifier;
use id_value::{Constant, Kind};
use indexmap::IndexSet;
use std::alloc::{AllocError, Global};

/// The rows so far, and the names in them, each once. After an error neither is of use.
#[derive(Drop)]
pub struct Maker<'a> {
    pub rows: Vec<Row>,
    pub numbers: IndexSet<Spelled<'a>>,
}

impl<'a> Maker<'a> {
    /// No rows, and the name `main`, with room for so many rows and names. The rows' room is taken first: it is that
    /// which the tokens gave back.
    pub fn new(
        alloc: Global,
        rows: usize,
        names: usize,
        main: &'a Identifier,
    ) -> Result<Maker<'a>, AllocError>
        requires { main.now ≡ codes "main" }
        ensures { IfOk result IsStart }
    {
        let rows = Vec::with_capacity(alloc, rows)?;
        let numbers = main_alone(alloc, names, main)?;
        Ok(Maker { rows, numbers })
    }

    /// The number of the name, which is new where it did not stand before.
    pub fn number(&mut self, name: &'a Identifier) -> Result<usize, AllocError>
        ensures number { IfOk result (λ n. n ≡ number_of (texts self.old.numbers.keys) name.now) }
        ensures names { OnOk result (texts self.new.numbers.keys ≡ with_name (texts self.old.numbers.keys) name.now) }
        ensures rows { self.new.rows ≡ self.old.rows }
    {
        let (number, _) = self.numbers.insert_full(Spelled { name })?;
        Ok(number)
    }

    /// The row that gives the value of the next row, which has this node.
    pub fn value_of(&self, node: Node) -> usize
        ensures { result ≡ value_of self.now.rows.items node }
    {
        match node {
            Node::Block { body } => match self.rows.get(body) {
                Some(row) => row.value as usize,
                None => 0,
            },
            Node::Within { flag } => flag,
            _ => self.rows.len(),
        }
    }

    /// Adds a row, and gives its number.
    #[inline(always)]
    pub fn push(
        &mut self,
        stand: Stand,
        place: u32,
        first: usize,
        node: Node,
    ) -> Result<usize, AllocError>
        ensures added { IfOk result (λ i. IsAdded i (parts self.new)
            (with_row (parts self.old) stand place first node)) }
        ensures number { IfOk result (λ i. i ≡ size (parts self.old)) }
    {
        let number = self.rows.len();
        let first = short(first)?;
        let value = short(self.value_of(node))?;
        self.rows.push(Row {
            place,
            first,
            block: stand.block,
            region: stand.region,
            value,
            node,
        })?;
        Ok(number)
    }

    /// Adds a row.
    #[inline(always)]
    pub fn put(
        &mut self,
        stand: Stand,
        place: u32,
        first: usize,
        node: Node,
    ) -> Result<(), AllocError>
        ensures { OnOk result (parts self.new ≡ with_row (parts self.old) stand place first node) }
    {
        self.push(stand, place, first, node)?;
        Ok(())
    }

    /// Adds the row of switches, and gives where their true side stands.
    pub fn push_sides(
        &mut self,
        stand: Stand,
        place: u32,
        first: usize,
        node: Node,
    ) -> Result<Stand, AllocError>
        ensures added { OnOk result (parts self.new ≡ with_row (parts self.old) stand place first node) }
        ensures side { IfOk result (λ s. s ≡ arm stand (size (parts self.old)) true) }
    {
        let split = self.push(stand, place, first, node)?;
        in_arm(stand, split)
    }

    /// Adds the row where a definition begins, and gives where its parts stand.
    pub fn begin_def(&mut self, place: u32) -> Result<Stand, AllocError>
        ensures added { OnOk result (parts self.new ≡ with_row (parts self.old)
            (in_top (size (parts self.old))) place (size (parts self.old)) variant.Head) }
        ensures stand { IfOk result (λ s. s ≡ in_top (size (parts self.old))) }
    {
        let head = self.rows.len();
        let stand = stand_in(head)?;
        self.put(stand, place, head, Node::Head)?;
        Ok(stand)
    }

    /// Adds the row of a definition behind its body, whose number this is, where its parts stand here.
    pub fn end_def(&mut self, stand: Stand, def: &'a Def, body: usize) -> Result<(), AllocError>
        ensures { OnOk result (parts self.new
            ≡ with_row (naming (parts self.old) def.now.name) stand def.now.place stand.block
            (variant.Def (number_of (parts self.old).names def.now.name) stand.block def.now.result body)) }
    {
        let name = self.number(&def.name)?;
        let node = def_node(name, stand.block, def.result, body)?;
        self.put(stand, def.place, stand.block as usize, node)
    }

    /// Adds the row of each parameter, in order.
    pub fn add_params(&mut self, stand: Stand, params: &'a [Param]) -> Result<(), AllocError>
        ensures { OnOk result (parts self.new ≡ add stand (parts self.old) (params_tree params.now)) }
    {
        for param in params {
            self.add_param(stand, param)?;
        }
        Ok(())
    }

    /// Adds the row of a parameter.
    pub fn add_param(&mut self, stand: Stand, param: &'a Param) -> Result<(), AllocError>
        ensures { OnOk result (parts self.new ≡ add stand (parts self.old) (params_tree (param.now ∷ []))) }
    {
        let first = self.rows.len();
        let name = self.number(&param.name)?;
        self.put(
            stand,
            param.place,
            first,
            Node::Param {
                name,
                kind: param.kind,
            },
        )
    }

    /// Adds the row of a literal, and gives its number.
    pub fn add_literal(
        &mut self,
        stand: Stand,
        value: Constant,
        place: u32,
    ) -> Result<usize, AllocError>
        ensures { IfOk result (λ i. IsAdded i (parts self.new) (add stand (parts self.old) (literal value place))) }
    {
        let first = self.rows.len();
        self.push(stand, place, first, Node::Literal { value })
    }

    /// Adds the row of a name, and gives its number.
    pub fn add_name(
        &mut self,
        stand: Stand,
        name: &'a Identifier,
        place: u32,
    ) -> Result<usize, AllocError>
        ensures { IfOk result (λ i. IsAdded i (parts self.new)
            (add stand (parts self.old) (name_tree name.now place))) }
    {
        let first = self.rows.len();
        let name = self.number(name)?;
        self.push(stand, place, first, Node::Name { name })
    }

    /// Adds the row of a conditional whose `then` arm stands on this side.
    pub fn push_if(
        &mut self,
        stand: Stand,
        place: u32,
        first: usize,
        side: Stand,
        then: usize,
        otherwise: usize,
    ) -> Result<usize, AllocError>
        ensures { IfOk result (λ i. IsAdded i (parts self.new)
            (with_row (parts self.old) stand place first (If side.region.head then otherwise))) }
    {
        let node = if_node(side.region.head, then, otherwise)?;
        self.push(stand, place, first, node)
    }

    /// Adds the row where a call of this name begins, and gives its number.
    pub fn push_enter(
        &mut self,
        stand: Stand,
        name: &'a Identifier,
        place: u32,
    ) -> Result<usize, AllocError>
        ensures added { OnOk result (parts self.new ≡ with_row (naming (parts self.old) name.now) stand place
            (size (parts self.old)) (Enter (number_of (parts self.old).names name.now))) }
        ensures number { IfOk result (λ e. e ≡ size (parts self.old)) }
    {
        let enter = self.rows.len();
        let name = self.number(name)?;
        self.push(stand, place, enter, Node::Enter { name })
    }

    /// Adds the row of what the argument of this index sends.
    pub fn push_arg(
        &mut self,
        stand: Stand,
        place: u32,
        enter: usize,
        index: usize,
        value: usize,
    ) -> Result<(), AllocError>
        ensures { OnOk result (parts self.new
            ≡ with_row (parts self.old) stand place enter (Arg enter index value)) }
    {
        let node = arg_node(enter, index, value)?;
        self.put(stand, place, enter, node)
    }

    /// Adds the rows of a loop before its predicate, and gives where that stands.
    pub fn begin_loop(
        &mut self,
        stand: Stand,
        statements: &'a [Stmt],
        place: u32,
    ) -> Result<Stand, AllocError>
        ensures added { OnOk result (parts self.new
            ≡ begin_loop stand (parts self.old) (stmts_tree statements.now) place) }
        ensures inside { IfOk result (λ s. s ≡ in_top (length self.old.rows.items + 1)) }
    {
        let inside = self.push_head(stand, place)?;
        self.add_entries(inside, statements, place)?;
        Ok(inside)
    }

    /// Adds the rows of a `for` from its `Start` up to its switches, and gives where their true side stands. Its index
    /// is at this place.
    pub fn begin_for(
        &mut self,
        stand: Stand,
        statements: &'a [Stmt],
        index: u32,
        place: u32,
    ) -> Result<Stand, AllocError>
        ensures added { OnOk result (parts self.new
            ≡ begin_for stand (parts self.old) (stmts_tree statements.now) index place) }
        ensures side { IfOk result (λ s. s
            ≡ arm (in_top (length self.old.rows.items + 1)) (last (parts self.new)) true) }
    {
        let inside = self.push_head(stand, place)?;
        self.carry(inside, index, place)?;
        self.add_entries(inside, statements, place)?;
        let test = self.rows.len();
        let flag = inside.block as usize + 3;
        self.put(inside, place, test, Node::Within { flag })?;
        self.push_sides(inside, place, test, Node::Switches { test })
    }

    /// Adds the entries of what a `for` carries on beside its variables; the index is at this place.
    pub fn carry(&mut self, inside: Stand, index: u32, place: u32) -> Result<(), AllocError>
        ensures { OnOk result (parts self.new ≡ carry inside (parts self.old) index place) }
    {
        self.push_carried(inside, index, Kind::Int)?;
        self.push_carried(inside, place, Kind::Int)?;
        self.push_carried(inside, place, Kind::Bool)
    }

    /// Adds the entry of something of this kind that a `for` carries on.
    fn push_carried(&mut self, inside: Stand, place: u32, kind: Kind) -> Result<(), AllocError>
        ensures { OnOk result (parts self.new
            ≡ with_row (parts self.old) inside place (size (parts self.old)) (variant.Carried kind)) }
    {
        let first = self.rows.len();
        self.put(inside, place, first, Node::Carried { kind })
    }

    /// Adds the entries of the variables of a loop of these statements, and of its imports.
    pub fn add_entries(
        &mut self,
        inside: Stand,
        statements: &'a [Stmt],
        place: u32,
    ) -> Result<(), AllocError>
        ensures { OnOk result (parts self.new
            ≡ add_entries inside (parts self.old) (stmts_tree statements.now) place) }
    {
        self.add_variables(inside, statements)?;
        let first = self.rows.len();
        self.put(inside, place, first, Node::Entries)
    }

    /// Adds the first rows of the body of a `for` with this index, and gives the number of the last one, with which
    /// the rows of the body begin.
    pub fn begin_counting(
        &mut self,
        side: Stand,
        name: &'a Identifier,
        index: u32,
        place: u32,
    ) -> Result<usize, AllocError>
        ensures { IfOk result (λ i. IsAdded i (parts self.new)
            (begin_counting side (parts self.old) name.now index place)) }
    {
        let first = self.rows.len();
        self.put(side, place, first, Node::Count)?;
        let first = self.push_turn(side, place)?;
        let name = self.number(name)?;
        self.push(side, index, first, Node::Index { name })
    }

    /// Adds the rows of a loop before its variables, and gives where they stand.
    pub fn push_head(&mut self, stand: Stand, place: u32) -> Result<Stand, AllocError>
        ensures added { OnOk result (parts self.new ≡ enter_loop stand (parts self.old) place) }
        ensures inside { IfOk result (λ s. s ≡ in_top (size (parts self.old) + 1)) }
    {
        let start = self.rows.len();
        self.put(stand, place, start, Node::Start)?;
        let head = self.rows.len();
        let inside = stand_in(head)?;
        self.put(inside, place, head, Node::LoopHead { start })?;
        Ok(inside)
    }

    /// Adds the row of a variable for each `next` among the statements.
    pub fn add_variables(&mut self, stand: Stand, statements: &'a [Stmt]) -> Result<(), AllocError>
        ensures { OnOk result (parts self.new ≡ add_variables stand (parts self.old) (stmts_tree statements.now)) }
    {
        for statement in statements {
            match statement {
                Stmt::Binding { .. } => {}
                Stmt::Store { .. } => {}
                Stmt::Next { place, .. } => self.add_variable(stand, *place)?,
            }
        }
        Ok(())
    }

    /// Adds the row of a variable of a loop.
    pub fn add_variable(&mut self, stand: Stand, place: u32) -> Result<(), AllocError>
        ensures { OnOk result (parts self.new
            ≡ with_row (parts self.old) stand place (size (parts self.old)) Variable) }
    {
        let first = self.rows.len();
        self.put(stand, place, first, Node::Variable)
    }

    /// Adds the rows of a loop behind its last expression, whose number this is, where that stands on this side, with
    /// its rows from `closed` on. The loop's rows begin at `first`, and its variables are seen from its `start` on.
    pub fn end_loop(
        &mut self,
        stand: Stand,
        side: Stand,
        place: u32,
        first: usize,
        start: usize,
        closed: usize,
        last: usize,
    ) -> Result<usize, AllocError>
        ensures { IfOk result (λ i. IsAdded i (parts self.new)
            (end_loop stand side place first start closed last (parts self.old))) }
    {
        self.put(side, place, closed, Node::Reset { value: last })?;
        self.put(stand, place, start, Node::Span)?;
        let node = Node::Loop {
            head: side.block,
            switches: side.region.head,
            last: short(last)?,
        };
        self.push(stand, place, first, node)
    }

    /// Adds the row where the body of a loop begins, and gives the number of the next one.
    pub fn push_turn(&mut self, stand: Stand, place: u32) -> Result<usize, AllocError>
        ensures { IfOk result (λ n. (parts self.new
            ≡ with_row (parts self.old) stand place (size (parts self.old)) Turn) × (n ≡ size (parts self.new))) }
    {
        let turned = self.rows.len();
        self.put(stand, place, turned, Node::Turn)?;
        Ok(self.rows.len())
    }

    /// Adds the row of the use that a `next` statement makes of the outer name, and gives the number of the name.
    pub fn push_use(
        &mut self,
        stand: Stand,
        name: &'a Identifier,
        place: u32,
    ) -> Result<usize, AllocError>
        ensures added { OnOk result (parts self.new ≡ with_row (naming (parts self.old) name.now) stand place
            (size (parts self.old)) (NextUse (number_of (parts self.old).names name.now))) }
        ensures number { IfOk result (λ n. n ≡ number_of (parts self.old).names name.now) }
    {
        let outer = self.rows.len();
        let number = self.number(name)?;
        self.put(stand, place, outer, Node::NextUse { name: number })?;
        Ok(number)
    }

    /// Adds the row of a `next` statement.
    pub fn push_next(
        &mut self,
        stand: Stand,
        place: u32,
        name: usize,
        index: usize,
        outer: usize,
        value: usize,
    ) -> Result<(), AllocError>
        ensures { OnOk result (parts self.new
            ≡ with_row (parts self.old) stand place outer (Next name index outer value)) }
    {
        let node = next_node(name, index, outer, value)?;
        self.put(stand, place, outer, node)
    }

    /// Adds the row of a binding behind its expression, whose number this is.
    pub fn push_binding(
        &mut self,
        stand: Stand,
        name: &'a Identifier,
        place: u32,
        first: usize,
        value: usize,
    ) -> Result<(), AllocError>
        ensures { OnOk result (parts self.new ≡ with_row (naming (parts self.old) name.now) stand place first
            (variant.Binding (number_of (parts self.old).names name.now) value)) }
    {
        let name = self.number(name)?;
        self.put(stand, place, first, Node::Binding { name, value })
    }
}
