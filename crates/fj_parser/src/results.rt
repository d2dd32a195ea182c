//! What a machine has read, taken out of its box.

ghost use Rattle.std.specs.Prelude.{◌≡◌, true};
ghost use Rattle.cfj_words.specs.Names.{is_name};
ghost use Rattle.fj_machine.specs.Machine as spec;
ghost use Rattle.fj_machine.specs.MachineViews.{machine_seen};
ghost use Rattle.fj_machine.specs.Machine.{of_parts};

use cfj_model::{Class, Constructor, FeatureModel, Field, Method};
use fj_machine::Machine;
use std::alloc::Global;

/// The format, features, constraints and classes that are read.
pub fn into_parts(alloc: Global, machine: Box<Machine<'_>>) -> (FeatureModel, Vec<Class>)
    ensures { of_parts result.0.format result.0.features result.0.constraints result.1.items ≡ spec.stands_for (machine_seen machine.entry.value) }
{
    let mut machine = machine;
    machine.take_parts(alloc)
}

/// The classes that are read.
pub fn into_classes(alloc: Global, machine: Box<Machine<'_>>) -> Vec<Class>
    ensures { result ≡ machine.entry.value.classes }
{
    let mut machine = machine;
    machine.take_classes(alloc)
}

/// The fields and the methods that are read.
pub fn into_members(alloc: Global, machine: Box<Machine<'_>>) -> (Vec<Field>, Vec<Method>)
    ensures fields { result.0 ≡ machine.entry.value.fields }
    ensures methods { result.1 ≡ machine.entry.value.methods }
{
    let mut machine = machine;
    machine.take_members(alloc)
}

/// The constructor that is read.
pub fn into_ctor(alloc: Global, machine: Box<Machine<'_>>) -> Constructor
    ensures { result ≡ machine.entry.value.ctor }
{
    let mut machine = machine;
    machine.take_ctor(alloc)
}

/// The name that is read.
pub fn into_name<'a>(machine: Box<Machine<'a>>) -> &'a str
    ensures name { result.now ≡ machine.entry.value.of.now }
    ensures named { is_name result.now ≡ true }
{
    machine.of
}
