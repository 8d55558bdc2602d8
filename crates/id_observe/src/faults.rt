//! The faults that the records of several elements show (docs/MACHINE.md, "Observed").

ghost use Rattle.std.specs.Prelude.{◌≡◌, ◌++◌, [], map, IfOk, OnOk};
ghost use Rattle.std.specs.List.{cons_option};
ghost use Rattle.id_observe.specs.Paths.{events_of, path_by, structure_by};
ghost use Rattle.id_observe.specs.Sourced.{faults_of};
ghost use Rattle.id_record.specs.declared.kept.Keeps.TheVariants as keeps;

use crate::records::{Paths, Whole};
use crate::sourced::source_fault;
use id_record::Events;
use id_source::SourceFault;
use id_step::Element;
use std::alloc::{AllocError, Global};

/// The faults that the records show.
pub fn all_faults(alloc: Global, whole: &Whole<'_>) -> Result<Vec<SourceFault>, AllocError>
    ensures { IfOk result
        (λ v. v.items
        ≡ faults_of whole.now.paths.graph.now (path_by whole.now.paths) (structure_by whole.now.paths)
        (events_of (map (λ e. e.state) whole.now.paths.elements.now))) }
{
    let mut faults = Vec::new(alloc);
    for element in whole.paths.elements {
        add_element_faults(alloc, &whole.paths, element, &mut faults)?;
    }
    Ok(faults)
}

/// Adds the faults that the record of an element shows. Where each event went well, that takes no look at it.
fn add_element_faults(
    alloc: Global,
    paths: &Paths<'_>,
    element: &Element<'_>,
    faults: &mut Vec<SourceFault>,
) -> Result<(), AllocError>
    requires { element.now.keeps ≡ keeps.All }
    ensures { OnOk result
        (faults.new.items ≡ faults.old.items
        ++ faults_of paths.now.graph.now (path_by paths.now) (structure_by paths.now) element.now.state.events) }
{
    if element.all_went() {
        Ok(())
    } else {
        add_faults(alloc, paths, &element.events(), faults)?;
        Ok(())
    }
}

/// Adds the faults that these events show.
fn add_faults(
    alloc: Global,
    paths: &Paths<'_>,
    events: &Events<'_>,
    faults: &mut Vec<SourceFault>,
) -> Result<(), AllocError>
    ensures { OnOk result
        (faults.new.items ≡ faults.old.items
        ++ faults_of paths.now.graph.now (path_by paths.now) (structure_by paths.now) events.now) }
{
    for position in 0..events.len() {
        let event = events.event(position);
        add_fault(source_fault(alloc, paths, event.step)?, faults)?;
    }
    Ok(())
}

/// Adds the fault, if there is one.
fn add_fault(fault: Option<SourceFault>, faults: &mut Vec<SourceFault>) -> Result<(), AllocError>
    ensures { OnOk result (faults.new.items ≡ faults.old.items ++ cons_option fault []) }
{
    match fault {
        Some(fault) => {
            faults.push(fault)?;
            Ok(())
        }
        None => Ok(()),
    }
}
