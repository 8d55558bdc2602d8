//! What a run comes to.

ghost use Rattle.std.specs.Prelude.{◌≡◌};

use id_core::{Element, Machine, Merged, merge_records};
use id_flight::Queue;
use std::alloc::{AllocError, Global};
use std::marker::Model;

/// A run that has ended: the machine, with its elements in order of their numbers, and the messages that are left.
#[derive(Drop)]
pub struct Run<'a> {
    machine: Machine<'a>,
}

impl<'a> Model for Run<'a> {
    ghost use Rattle.id_core.specs.Codes.{coded_machine};
    ghost use Rattle.id_core.specs.Machines.{MachineView};

    ghost Value = { MachineView };

    ghost coded = { coded_machine };

    ghost view = { λ r. r.machine };
}

impl<'a> Run<'a> {
    ghost use Rattle.std.specs.Prelude.{◌≡◌, map, IfOk};
    ghost use Rattle.std.specs.List.Sorted.{IsStrictlyIncreasing};
    ghost use Rattle.id_core.specs.Firsts.{AreMergedOf};
    ghost use Rattle.id_core.specs.Machines.{AllKeep, AreElements, world_of};
    ghost use Rattle.id_record.specs.declared.kept.Keeps.TheVariants as keeps;

    /// The run that has come to this machine. Takes no memory.
    pub(crate) fn of(machine: Machine<'a>) -> Run<'a>
        ensures { result ≡ machine.entry }
    {
        Run { machine }
    }

    /// The machine that the run has come to. Takes no memory.
    pub fn machine(&self) -> &Machine<'a>
        ensures { result.now ≡ self.now }
    {
        &self.machine
    }

    /// The elements, in order of their numbers. Takes no memory.
    pub fn elements(&self) -> &[Element<'a>]
        ensures elements { AreElements self.now.graph self.now.count result.now }
        ensures world { world_of result.now self.now.world.flight ≡ self.now.world }
        ensures kept { AllKeep self.now.keeps result.now }
        ensures rise { IsStrictlyIncreasing (map (λ e. e.number) result.now) }
    {
        self.machine.elements()
    }

    /// The messages that are left. Takes no memory.
    pub fn left(&self) -> &Queue
        ensures { result.now.messages ≡ self.now.world.flight }
    {
        self.machine.in_flight()
    }

    /// All events, by stamp, and at one stamp by element, of a run that keeps them.
    pub fn order(&self, alloc: Global) -> Result<Merged<'_>, AllocError>
        requires { self.now.keeps ≡ keeps.All }
        ensures { IfOk result (AreMergedOf self.now.world.elements) }
    {
        merge_records(alloc, self.machine.elements())
    }

    /// Gives back the memory of what is in flight and of what waits at each element, where nothing is or does: it shows
    /// the same as before.
    pub fn give_back(&mut self, alloc: Global)
        ensures { self.new ≡ self.old }
    {
        self.machine.give_back(alloc);
    }
}
