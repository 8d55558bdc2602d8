//! The machine: its elements and the messages in flight, in a list (docs/MACHINE.md, "Runs").

ghost use Rattle.std.specs.Prelude.{◌≡◌, ◌<◌, ◌+◌, ◌++◌, ◌↔◌, [], All, length, map};
ghost use Rattle.std.specs.Prelude.{replicate, IfOk, OnOk};
ghost use Rattle.std.specs.Prelude.{IsTrue};
ghost use Rattle.id_instr.specs.declared.dests.Port.TheVariants.{Zero};
ghost use Rattle.id_tag.specs.declared.Payload.TheVariants.{Token};
ghost use Rattle.id_record.specs.Events.{AllWent};
ghost use Rattle.id_step.specs.Fits.{Fits};
ghost use Rattle.id_step.specs.Steps.{fresh};
ghost use Rattle.id_core.specs.Machines.{AllKeep, AreElements};
ghost use Rattle.id_core.specs.Machines.{input_messages, start_message, start_messages};
ghost use Rattle.id_observe.specs.Observed.{main_tag};

use crate::counts::Count;
use crate::entering::Start;
use id_flight::Queue;
use id_instr::Port;
use id_observe::{
    Holdings, Observed, Records, answer, first_fault, main_tag, observe_holdings, observe_names,
    observe_records,
};
use id_ops::value_of;
use id_record::{Keeps, Step};
use id_source::{Inputs, NameValue, SourceFault, SourceValue};
use id_step::{Element, Open, TakeError};
use id_tag::{Message, Payload, Sender, Value, route};
use id_valid::Valid;
use id_value::Constant;
use std::alloc::{AllocError, AllocFailed, Global};
use std::marker::Model;

/// Why there is no machine.
#[derive(Clone, Copy)]
pub enum MachineError {
    /// No element, or more than `MAX_ELEMENTS`.
    BadElements,
    /// A growth was refused.
    Memory,
}

impl From<AllocError> for MachineError {
    ghost use Rattle.std.specs.Prelude.{◌≡◌};
    ghost use Rattle.id_core.specs.declared.machine.MachineError.TheVariants.{Memory};

    ghost from_gives = { λ _ e. e ≡ Memory };

    fn from(_error: AllocError) -> MachineError {
        MachineError::Memory
    }
}

impl<T: Drop> From<AllocFailed<T>> for MachineError {
    ghost use Rattle.std.specs.Prelude.{◌≡◌};
    ghost use Rattle.id_core.specs.declared.machine.MachineError.TheVariants.{Memory};

    ghost from_gives = { λ _ e. e ≡ Memory };

    fn from(_error: AllocFailed<T>) -> MachineError {
        MachineError::Memory
    }
}

/// A machine: 1 to 64 elements of one graph, each of which keeps so much of its events, and the messages in flight, in
/// the order in which they were sent.
#[derive(Drop)]
pub struct Machine<'a> {
    graph: &'a Valid,
    keeps: Keeps,
    elements: Vec<Element<'a>>,
    flight: Queue,
}

impl<'a> Model for Machine<'a> {
    ghost use Rattle.std.specs.Prelude.{length};
    ghost use Rattle.id_core.specs.Codes.{coded_machine};
    ghost use Rattle.id_core.specs.Machines.{MachineView, IsMachine, world_of};

    ghost Value = { MachineView };

    ghost coded = { coded_machine };

    ghost view = { λ m. record {
      graph = m.graph.now;
      count = length m.elements.items;
      keeps = m.keeps;
      world = world_of m.elements.items m.flight.messages;
    } };

    ghost invariant = { λ m. IsMachine m.graph.now m.keeps m.elements.items m.flight.messages };
}

impl<'a> Machine<'a> {
    ghost use Rattle.std.specs.Prelude.{◌≡◌, ◌≢◌, ◌<◌, ◌↔◌, ◌⊎◌, [], All, length, map};
    ghost use Rattle.std.specs.Prelude.{Some, None, option_map};
    ghost use Rattle.std.specs.Prelude.{IfOk, OnOk, OnErr, IsTrue, MatchOption};
    ghost use Rattle.std.specs.List.Sorted.{IsStrictlyIncreasing};
    ghost use Rattle.id_core.specs.Firsts.{IsFirstFault};
    ghost use Rattle.id_core.specs.declared.machine.MachineError.TheVariants.{BadElements};
    ghost use Rattle.id_step.specs.declared.step.TakeError.TheVariants.{StampEnd};
    ghost use Rattle.id_step.specs.Fits.{Fits};
    ghost use Rattle.id_core.specs.Observed.{answer, asks, cell_values, cells, faults, names, structures, waiting};
    ghost use Rattle.id_record.specs.declared.kept.Keeps.TheVariants as keeps;
    ghost use Rattle.id_core.specs.Machines.{AllKeep, AreElements, IsMachine, IsQuiet, TakesInputs};
    ghost use Rattle.id_core.specs.Machines.{delivered, event_at, start};
    ghost use Rattle.id_core.specs.Machines.{world_of};

    /// The machine of so many elements at its start, with the start messages in flight: a signal to
    /// main's first instruction, the continuation to instruction 0, and an input to each of main's entries.
    /// `BadElements` comes where the count is not from 1 to 64. Each element keeps all events.
    pub fn new(
        alloc: Global,
        graph: &'a Valid,
        inputs: &Inputs,
        count: u32,
    ) -> Result<Machine<'a>, MachineError>
        requires { TakesInputs graph.now inputs.now.values }
        ensures ok { IfOk result (λ m. m ≡ record {
          graph = graph.now;
          count = count;
          keeps = keeps.All;
          world = start graph.now inputs.now.values count;
        }) }
        ensures refused { (result ≡ Err BadElements) ↔ ((count ≡ 0) ⊎ (64 < count)) }
    {
        Machine::keeping(alloc, graph, inputs, count, Keeps::All)
    }

    /// The same, where each element keeps so much of its events.
    pub fn keeping(
        alloc: Global,
        graph: &'a Valid,
        inputs: &Inputs,
        count: u32,
        keeps: Keeps,
    ) -> Result<Machine<'a>, MachineError>
        requires { TakesInputs graph.now inputs.now.values }
        ensures ok { IfOk result (λ m. m ≡ record {
          graph = graph.now;
          count = count;
          keeps = keeps;
          world = start graph.now inputs.now.values count;
        }) }
        ensures refused { (result ≡ Err BadElements) ↔ ((count ≡ 0) ⊎ (64 < count)) }
    {
        let Some(count) = Count::new(count) else {
            return Err(MachineError::BadElements);
        };
        let machine = Machine::begin(alloc, Start { graph, inputs }, count, keeps)?;
        Ok(machine)
    }

    /// The same, of so many as a machine may have.
    pub fn begin(
        alloc: Global,
        from: Start<'a, '_>,
        count: Count,
        keeps: Keeps,
    ) -> Result<Machine<'a>, AllocError>
        ensures { IfOk result (λ m. m ≡ record {
          graph = from.entry.graph.now;
          count = count.number;
          keeps = keeps;
          world = start from.entry.graph.now from.entry.inputs.now.values count.number;
        }) }
    {
        let elements = fresh_elements(alloc, from.graph, count, keeps)?;
        let flight = start_flight(alloc, from)?;
        Ok(Machine {
            graph: from.graph,
            keeps,
            elements,
            flight,
        })
    }

    /// The machine of these elements, which keep so much, with these messages in flight. Takes no memory.
    pub fn resume(
        graph: &'a Valid,
        keeps: Keeps,
        elements: Vec<Element<'a>>,
        flight: Queue,
    ) -> Machine<'a>
        requires { IsMachine graph.now keeps elements.items flight.messages }
        ensures { result ≡ record {
          graph = graph.now;
          count = length elements.entry.items;
          keeps = keeps;
          world = world_of elements.entry.items flight.messages;
        } }
    {
        Machine {
            graph,
            keeps,
            elements,
            flight,
        }
    }

    /// Delivers the message at a position of the list of those in flight: it leaves, the list closes
    /// up, the element that it is for handles it, and what is sent goes to the end of the list. After an
    /// error nothing has changed.
    pub fn deliver(&mut self, position: usize) -> Result<Step, TakeError>
        requires { position < length self.old.world.flight }

        ensures world { OnOk result
            (self.new ≡ record self.old { world = delivered self.old.graph self.old.count self.old.world position }) }
        ensures step { IfOk result
            (λ step. option_map (λ e. e.step) (event_at self.old.graph self.old.count self.old.world position)
            ≡ Some step) }

        ensures end { (result ≡ Err StampEnd) ↔
            (event_at self.old.graph self.old.count self.old.world position ≡ None) }
        ensures err { OnErr result (self.new ≡ self.old) }
    {
        let message = self.flight.message(position);
        let number = route(&message, self.elements.len() as u32) as usize;
        self.elements[number].take_at(&mut self.flight, position, &Open)
    }

    /// Gives back the memory of what is in flight and of what waits at each element, where nothing is or does: it shows
    /// the same as before.
    pub fn give_back(&mut self, alloc: Global)
        ensures { self.new ≡ self.old }
    {
        if self.flight.is_empty() {
            self.flight = Queue::new(alloc);
        }
        give_back(&mut self.elements, alloc);
    }

    /// Whether nothing is in flight and no event was a fault or `Stuck`. Takes no memory.
    pub fn is_quiet(&self) -> bool
        ensures { IsTrue result ↔ IsQuiet self.now.world }
    {
        self.flight.is_empty() && all_went(self.elements.as_slice())
    }

    /// The messages in flight, in the order in which they were sent. Takes no memory.
    pub fn in_flight(&self) -> &Queue
        ensures value { result.now.messages ≡ self.now.world.flight }
        ensures fit { All (Fits self.now.graph) self.now.world.flight }
    {
        &self.flight
    }

    /// What the run so far shows: the answer, what binders have, structures and their cells, what fetches ask for and
    /// which of them wait, and the faults.
    pub fn observe(&self, alloc: Global) -> Result<Observed, AllocError>
        requires { self.now.keeps ≡ keeps.All }
        ensures answer { IfOk result (λ o. o.answer ≡ answer self.now.graph self.now.world) }
        ensures names { IfOk result (λ o. o.names ≡ names self.now.graph self.now.world) }
        ensures structures { IfOk result (λ o. o.structures ≡ structures self.now.graph self.now.world) }
        ensures cells { IfOk result (λ o. o.cells ≡ cells self.now.graph self.now.world) }
        ensures asks { IfOk result (λ o. o.asks ≡ asks self.now.graph self.now.world) }
        ensures waiting { IfOk result (λ o. o.waiting ≡ waiting self.now.graph self.now.world) }
        ensures faults { IfOk result (λ o. o.faults ≡ faults self.now.graph self.now.world) }
    {
        let shown = observe_records(alloc, self.graph, self.elements.as_slice())?;
        Ok(shown)
    }

    /// The answer that the run so far shows, for who asks for nothing else. Memory is wanted only where it is a
    /// structure.
    pub fn answer(&self, alloc: Global) -> Result<Option<SourceValue>, AllocError>
        ensures { IfOk result (λ o. o ≡ answer self.now.graph self.now.world) }
    {
        answer(alloc, &self.records())
    }

    /// What the run so far shows that binders have, for who asks for nothing else.
    pub fn names(&self, alloc: Global) -> Result<Vec<NameValue>, AllocError>
        requires { self.now.keeps ≢ keeps.Tellings }
        ensures { IfOk result (λ v. v.items ≡ names self.now.graph self.now.world) }
    {
        observe_names(alloc, &self.records())
    }

    /// What the run so far shows of its answer and of structures, for who asks for nothing else: by one look through
    /// the records. By which stores the cells have their values is not looked up.
    pub fn holdings(&self, alloc: Global) -> Result<Holdings, AllocError>
        ensures answer { IfOk result (λ o. o.answer ≡ answer self.now.graph self.now.world) }
        ensures structures { IfOk result (λ o. o.structures ≡ structures self.now.graph self.now.world) }
        ensures cells { IfOk result (λ o. o.cells ≡ cell_values self.now.graph self.now.world) }
        ensures waiting { IfOk result (λ o. o.waiting ≡ waiting self.now.graph self.now.world) }
    {
        observe_holdings(alloc, &self.records())
    }

    /// The first fault of the run so far, by stamp and then by element, if there is one.
    pub fn first_fault(&self, alloc: Global) -> Result<Option<SourceFault>, AllocError>
        ensures { IfOk result (λ o. MatchOption o (faults self.now.graph self.now.world ≡ [])
            (IsFirstFault self.now.graph self.now.world.elements)) }
    {
        first_fault(alloc, &self.records())
    }

    /// Its elements with their graph, as observation takes them.
    fn records(&self) -> Records<'_>
        ensures graph { result.graph.now ≡ self.now.graph }
        ensures elements { map (λ e. e.state) result.elements.now ≡ self.now.world.elements }
        ensures kept { AllKeep self.now.keeps result.elements.now }
        ensures rise { IsStrictlyIncreasing (map (λ e. e.number) result.elements.now) }
    {
        Records {
            graph: self.graph.graph(),
            elements: self.elements(),
        }
    }

    /// How many elements there are. Takes no memory.
    pub fn count(&self) -> Count
        ensures { result.number ≡ self.now.count }
    {
        Count {
            number: self.elements.len() as u32,
        }
    }

    /// How much each element keeps of its events. Takes no memory.
    pub fn keeps(&self) -> Keeps
        ensures { result ≡ self.now.keeps }
    {
        self.keeps
    }

    /// The elements, in order of their numbers. Takes no memory.
    pub fn elements(&self) -> &[Element<'a>]
        ensures elements { AreElements self.now.graph self.now.count result.now }
        ensures world { world_of result.now self.now.world.flight ≡ self.now.world }
        ensures kept { AllKeep self.now.keeps result.now }
        ensures len { length result.now ≡ self.now.count }
        // So `merge_records` takes them, where they keep all.
        ensures rise { IsStrictlyIncreasing (map (λ e. e.number) result.now) }
    {
        self.elements.as_slice()
    }
}

/// Whether no event of these elements was a fault or `Stuck`.
fn all_went(elements: &[Element<'_>]) -> bool
    ensures { IsTrue result ↔ All (λ e. AllWent e.state.events) elements.now }
{
    elements.iter().all(|element| element.all_went())
}

/// Gives back the memory of what waits at each of these elements, where nothing does.
fn give_back(elements: &mut [Element<'_>], alloc: Global)
    ensures { elements.new ≡ elements.old }
{
    for number in 0..elements.len() {
        elements[number].give_back(alloc);
    }
}

/// So many elements of a graph that have handled nothing and keep so much of their events.
pub fn fresh_elements<'a>(
    alloc: Global,
    graph: &'a Valid,
    count: Count,
    keeps: Keeps,
) -> Result<Vec<Element<'a>>, AllocError>
    ensures len { IfOk result (λ es. length es.items ≡ count.number) }
    ensures elements { IfOk result (λ es. AreElements graph.now count.number es.items) }
    ensures kept { IfOk result (λ es. AllKeep keeps es.items) }
    ensures states { IfOk result (λ es. map (λ e. e.state) es.items ≡ replicate count.number fresh) }
{
    let mut elements = Vec::with_capacity(alloc, count.number as usize)?;
    for number in 0..count.number {
        elements.push_reserved(Element::keeping(alloc, number, count.number, graph, keeps));
    }
    Ok(elements)
}

/// The start messages: those in flight at the start of a machine of the graph with the inputs.
pub fn start_flight(alloc: Global, from: Start<'_, '_>) -> Result<Queue, AllocError>
    ensures messages { IfOk result
        (λ q. q.messages ≡ start_messages from.entry.graph.now from.entry.inputs.now.values) }
    ensures fit { IfOk result (λ q. All (Fits from.entry.graph.now) q.messages) }
{
    let block = from.graph.main_block();
    let within = (block.first as usize) + 1 < from.graph.graph().instrs().len();
    prove!(within);
    let mut flight = Queue::new(alloc);
    let trigger = start_message(0, block.first, Value::Signal);
    flight.push_back(trigger)?;
    let back = start_message(1, block.first + 1, Value::Continuation(main_tag(0)));
    flight.push_back(back)?;
    let entries = block.entries.as_slice();
    add_inputs(entries, from.inputs.values.as_slice(), &mut flight)?;
    Ok(flight)
}

/// Adds the messages that bring inputs to as many entries, one each in their order.
fn add_inputs(entries: &[u32], inputs: &[Constant], flight: &mut Queue) -> Result<(), AllocError>
    requires { length entries.now ≡ length inputs.now }
    ensures { OnOk result (flight.new.messages ≡ flight.old.messages ++ input_messages 2 entries.now inputs.now) }
{
    for (index, entry) in entries.iter().enumerate() {
        let value = value_of(inputs[index]);
        flight.push_back(start_message(index + 2, *entry, value))?;
    }
    Ok(())
}

/// A start message to port 0 of an instruction, with its number.
fn start_message(number: usize, instr: u32, value: Value) -> Message
    ensures { result ≡ start_message number (Token (main_tag instr) Zero value) }
{
    Message {
        payload: Payload::Token {
            tag: main_tag(instr),
            port: Port::Zero,
            value,
        },
        sender: Sender::Start,
        position: 0,
        output: number,
        stamp: 0,
    }
}
