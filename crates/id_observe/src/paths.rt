//! The path of each tag, and the name of each structure (docs/MACHINE.md, "Paths of tags").

ghost use Rattle.std.specs.Prelude.{◌≡◌, ◌++◌, [], length, map, option_map, slice_get};
ghost use Rattle.std.specs.Prelude.{IfOk, OnOk};
ghost use Rattle.std.specs.List.{cons_option};
ghost use Rattle.std.specs.Option.{option_or};
ghost use Rattle.std.specs.HashMap.{get};
ghost use Rattle.id_tag.specs.Tags.{same_context, same_structure};
ghost use Rattle.id_valid.specs.Roles.{op_at};
ghost use Rattle.id_observe.specs.Paths.{Adds, AreTold, events_of, main_tag, place_of};
ghost use Rattle.id_observe.specs.Paths.{enters_loop, if_made, if_same, step_of, steps_to};
ghost use Rattle.id_observe.specs.Paths.{is_alloc, is_enter};
ghost use Rattle.id_observe.specs.Tellings.{AddsOne, AddsTold, entered_told, made_told, value_told};

use crate::records::{Paths, Records};
use id_instr::{Graph, Op};
use id_record::{Telling, Tellings, Told};
use id_source::{Path, PathStep, Site};
use id_step::{Element, op_at};
use id_tag::{Context, NearHasher, Structure, Tag, Value};
use id_value::Sequence;
use std::alloc::{AllocError, Global};
use std::collections::HashMap;

/// A structure, and the tag under which it was made.
#[derive(Clone, Copy)]
pub struct Making {
    pub structure: Structure,
    pub tag: Tag,
}

/// What events tell: under which tag each context was entered and each structure was made, those structures, and the
/// values that came to the answer.
#[derive(Drop)]
struct Tables {
    enters: HashMap<Context, Tag, NearHasher>,
    makers: HashMap<Structure, Tag, NearHasher>,
    makings: Vec<Making>,
    values: Vec<Value>,
}

/// Adds what the events of an element of this graph tell.
fn add_record(graph: &Graph, element: &Element<'_>, tables: &mut Tables) -> Result<(), AllocError>
    requires { element.now.graph ≡ graph.now }
    ensures { OnOk result (Adds graph.now element.now.state.events tables.old tables.new) }
{
    let _handled = element.handled();
    add_tellings(graph, element.tellings(), tables)
}

/// Adds what is told, in order.
fn add_tellings(graph: &Graph, tellings: &Tellings, tables: &mut Tables) -> Result<(), AllocError>
    ensures { OnOk result (AddsTold graph.now tellings.now.items tables.old tables.new) }
{
    for position in 0..tellings.len() {
        add_telling(graph, tellings.telling(position), tables)?;
    }
    Ok(())
}

/// Adds what is told once.
fn add_telling(graph: &Graph, telling: Telling, tables: &mut Tables) -> Result<(), AllocError>
    ensures { OnOk result (AddsOne graph.now telling tables.old tables.new) }
{
    add_enter(entered_by(graph, telling), telling.tag, &mut tables.enters)?;
    add_maker(
        telling.tag,
        made_by(graph, telling),
        &mut tables.makers,
        &mut tables.makings,
    )?;
    add_value(value_by(telling), &mut tables.values)
}

/// The context that was entered, where that is told of an `enter`.
fn entered_by(graph: &Graph, telling: Telling) -> Option<Context>
    ensures { result ≡ entered_told graph.now telling }
{
    match telling.told {
        Told::Entered(context) => {
            if is_enter(op_at(graph, telling.tag.instr)) {
                Some(context)
            } else {
                None
            }
        }
        _ => None,
    }
}

/// The structure that was made, where that is told of an `alloc`.
fn made_by(graph: &Graph, telling: Telling) -> Option<Structure>
    ensures { result ≡ made_told graph.now telling }
{
    match telling.told {
        Told::Made(structure) => {
            if is_alloc(op_at(graph, telling.tag.instr)) {
                Some(structure)
            } else {
                None
            }
        }
        _ => None,
    }
}

/// The value that came to instruction 0 under main's tag, where that is told.
pub(crate) fn value_by(telling: Telling) -> Option<Value>
    ensures { result ≡ value_told telling }
{
    match telling.told {
        Told::Came(value) => {
            if telling.tag == main_tag(0) {
                Some(value)
            } else {
                None
            }
        }
        _ => None,
    }
}

/// Adds the tag under which a context was entered, if one was.
fn add_enter(
    entered: Option<Context>,
    tag: Tag,
    enters: &mut HashMap<Context, Tag, NearHasher>,
) -> Result<(), AllocError>
    ensures { OnOk result ((c : Context) → get same_context enters.new c
        ≡ option_or (if_same tag c entered) (get same_context enters.old c)) }
{
    match entered {
        Some(context) => {
            let _ = enters.insert(context, tag)?;
            Ok(())
        }
        None => Ok(()),
    }
}

/// Adds a value, if there is one.
fn add_value(value: Option<Value>, values: &mut Vec<Value>) -> Result<(), AllocError>
    ensures { OnOk result (values.new.items ≡ values.old.items ++ cons_option value []) }
{
    match value {
        Some(value) => {
            values.push(value)?;
            Ok(())
        }
        None => Ok(()),
    }
}

/// Whether an instruction is an `enter`.
fn is_enter(op: Option<Op>) -> bool
    ensures { result ≡ is_enter op }
{
    matches!(op, Some(Op::Enter { .. }))
}

/// Whether an instruction is an `alloc`.
pub fn is_alloc(op: Option<Op>) -> bool
    ensures { result ≡ is_alloc op }
{
    matches!(op, Some(Op::Alloc { .. }))
}

/// Whether the instruction is the `enter` of a loop.
fn enters_loop(graph: &Graph, number: u32) -> bool
    ensures { result ≡ enters_loop graph.now (place_of graph.now number) (op_at graph.now number) }
{
    match graph.instrs().get(number as usize) {
        Some(instr) => match instr.op {
            Op::Enter { block, .. } => place_of(graph, block) == instr.place,
            _ => false,
        },
        None => false,
    }
}

/// The step that the `enter` of this number adds to the path of its tag, at this iteration.
fn step_of(graph: &Graph, number: u32, iteration: u64) -> PathStep
    ensures { result ≡ step_of graph.now number iteration }
{
    PathStep {
        place: place_of(graph, number),
        number: if enters_loop(graph, number) {
            iteration
        } else {
            0
        },
    }
}

/// Adds the structure that an event under this tag made, if it did.
fn add_maker(
    tag: Tag,
    made: Option<Structure>,
    makers: &mut HashMap<Structure, Tag, NearHasher>,
    makings: &mut Vec<Making>,
) -> Result<(), AllocError>
    ensures makers { OnOk result ((s : Structure) → get same_structure makers.new s ≡
        option_or (if_made tag s made) (get same_structure makers.old s)) }
    ensures makings { OnOk result (makings.new.items ≡ makings.old.items
        ++ cons_option (option_map (λ s. record { structure = s; tag = tag }) made) []) }
{
    match made {
        Some(structure) => {
            let _ = makers.insert(structure, tag)?;
            makings.push(Making { structure, tag })?;
            Ok(())
        }
        None => Ok(()),
    }
}

impl<'a> Paths<'a> {
    ghost use Rattle.std.specs.Prelude.{◌≡◌, map, slice_get, IfOk};
    ghost use Rattle.id_observe.specs.Paths.{answers, events_of, path_in, site_at, structure_by, structure_in};
    ghost use Rattle.id_observe.specs.Paths.{makings_of, path_by};

    /// What these records tell.
    pub fn new(alloc: Global, records: &Records<'a>) -> Result<Paths<'a>, AllocError>
        ensures paths { IfOk result
            (λ p. path_by p ≡ path_in records.now.graph.now (map (λ e. e.state) records.now.elements.now)) }
        ensures structures { IfOk result
            (λ p. structure_by p ≡ structure_in records.now.graph.now (map (λ e. e.state) records.now.elements.now)) }
        ensures makings { IfOk result (λ p. p.makings.items
            ≡ makings_of records.now.graph.now (events_of (map (λ e. e.state) records.now.elements.now))) }
        ensures graph { IfOk result (λ p. p.graph.now ≡ records.now.graph.now) }
        ensures elements { IfOk result (λ p. p.elements.now ≡ records.now.elements.now) }
        ensures values { IfOk result
            (λ p. p.values.items ≡ answers (events_of (map (λ e. e.state) records.now.elements.now))) }
    {
        let tables = all_records(alloc, records)?;
        let most = count_events(records.elements);
        Ok(Paths {
            graph: records.graph,
            elements: records.elements,
            enters: tables.enters,
            makers: tables.makers,
            makings: tables.makings,
            most,
            values: tables.values,
        })
    }

    /// The path of a tag: its steps are written once, and nothing of the paths round it is.
    pub fn path(&self, alloc: Global, tag: Tag) -> Result<Path, AllocError>
        ensures { IfOk result (λ p. p ≡ path_by self.now tag) }
    {
        path_to(alloc, self.graph, &self.enters, self.most, tag)
    }

    /// Where the tag's instruction stands.
    pub fn site(&self, alloc: Global, tag: Tag) -> Result<Site, AllocError>
        ensures { IfOk result (λ a. a ≡ site_at self.now.graph.now (path_by self.now) tag) }
    {
        Ok(Site {
            path: self.path(alloc, tag)?,
            place: place_of(self.graph, tag.instr),
        })
    }

    /// The name of a structure.
    pub fn name(&self, alloc: Global, structure: Structure) -> Result<Site, AllocError>
        ensures { IfOk result (λ a. a ≡ structure_by self.now structure) }
    {
        let maker = self.makers.get(&structure).copied();
        self.site(alloc, maker.unwrap_or(main_tag(0)))
    }

    /// The structures that were made, in the order of their events.
    pub fn makings(&self) -> &[Making]
        ensures { result.now ≡ self.now.makings.items }
    {
        self.makings.as_slice()
    }

    /// The first value that came to the answer.
    pub fn first_value(&self) -> Option<Value>
        ensures { result ≡ slice_get self.now.values.items 0 }
    {
        self.values.first().copied()
    }

    /// The graph.
    pub fn graph(&self) -> &'a Graph
        ensures { result.now ≡ self.now.graph.now }
    {
        self.graph
    }
}

/// What the records of these elements tell, one record after another.
fn all_records(alloc: Global, records: &Records<'_>) -> Result<Tables, AllocError>
    ensures { IfOk result (AreTold records.now.graph.now (events_of (map (λ e. e.state) records.now.elements.now))) }
{
    let mut tables = Tables {
        enters: HashMap::with_hasher(alloc, NearHasher::new()),
        makers: HashMap::with_hasher(alloc, NearHasher::new()),
        makings: Vec::new(alloc),
        values: Vec::new(alloc),
    };
    for element in records.elements {
        add_record(records.graph, element, &mut tables)?;
    }
    Ok(tables)
}

/// How many events these elements have in their records. 128 bits hold the sum of as many lengths as a slice can have.
fn count_events(elements: &[Element<'_>]) -> u128
    ensures { result ≡ length (events_of (map (λ e. e.state) elements.now)) }
{
    let mut count = 0;
    for element in elements {
        count += element.handled() as u128;
    }
    count
}

/// The path of a tag, of at most so many steps, where contexts were entered under these tags: each step of it is pushed
/// once, from the last one on.
fn path_to(
    alloc: Global,
    graph: &Graph,
    enters: &HashMap<Context, Tag, NearHasher>,
    most: u128,
    tag: Tag,
) -> Result<Path, AllocError>
    ensures { IfOk result (λ p. p.steps ≡ steps_to graph.now (get same_context enters.now) most tag) }
{
    let mut steps = Vec::new(alloc);
    let mut at = tag;
    for taken in 0..most {
        match enters.get(&at.context) {
            Some(enter) => {
                steps.push(step_of(graph, enter.instr, at.iteration))?;
                at = *enter;
            }
            None => break,
        }
    }
    steps.reverse();
    Ok(Path {
        steps: Sequence::new(steps),
    })
}

/// The tag of an instruction in main's context, at iteration 0.
pub fn main_tag(instr: u32) -> Tag
    ensures { result ≡ main_tag instr }
{
    Tag {
        context: Context {
            element: 0,
            serial: 0,
        },
        iteration: 0,
        instr,
    }
}

/// The place of the instruction of this number.
pub fn place_of(graph: &Graph, number: u32) -> usize
    ensures { result ≡ place_of graph.now number }
{
    graph
        .instrs()
        .get(number as usize)
        .map_or(0, |instr| instr.place)
}
