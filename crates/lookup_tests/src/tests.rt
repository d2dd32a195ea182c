//! Generated lines of five classes over three features: with several fields and methods of one name, marks of both signs, superclasses
//! that aren't declared, and classes that extend themselves.

ghost use Rattle.std.specs.Prelude.{◌≡◌, ◌≤◌, IsTrue, length};
ghost use Rattle.cfj_model.specs.LookUps.{chain};

use cfj_model::{Class, Colors, Field, Name, Project, Selection};
use class_table::ClassTable;
use cond_circuit::Circuit;
use feature_views::project;
use fj_parser::parse_project;
use guarded_types::{
    all_fields_within, field_within, known_within, method_within, parts_within, subtype_within,
};
use std::alloc::{AllocError, Global};
use std::test::Fail;

/// The number of features.
const FEATURES: u8 = 3;

/// The classes of a line, and behind them names that it doesn't declare.
const NAMES: [&str; 7] = ["A", "B", "C", "D", "E", "Object", "Z"];

/// Marks, some of them more often than others.
const MARKS: [&str; 8] = ["", "", "@F ", "@!F ", "@G ", "@F @!G ", "@H ", "@!H "];

/// The next number of a plain generator, below a bound.
fn pick(state: &mut u32, below: u32) -> usize {
    *state = state.wrapping_mul(1_664_525).wrapping_add(1_013_904_223);
    let number = *state >> 16;
    if below == 0 {
        0
    } else {
        (number % below) as usize
    }
}

/// The text at a place, if there is one.
fn at<'a>(texts: &[&'a str], place: usize) -> &'a str {
    match texts.get(place) {
        Some(text) => text,
        None => "",
    }
}

/// Adds marks and a type.
fn add_typed(text: &mut String, state: &mut u32) -> Result<(), AllocError> {
    text.push_str(at(&MARKS, pick(state, 8)))?;
    text.push_str(at(&NAMES, pick(state, 7)))?;
    text.push_str(" ")
}

fn add_class(text: &mut String, state: &mut u32, name: &str) -> Result<(), AllocError> {
    text.push_str(at(&MARKS, pick(state, 8)))?;
    text.push_str("class ")?;
    text.push_str(name)?;
    text.push_str(" extends ")?;
    text.push_str(at(&NAMES, pick(state, 7)))?;
    text.push_str(" { ")?;
    for _ in 0..pick(state, 4) {
        add_typed(text, state)?;
        text.push_str(at(&["f; ", "g; "], pick(state, 2)))?;
    }
    text.push_str(name)?;
    text.push_str("() { super(); } ")?;
    for _ in 0..pick(state, 4) {
        add_typed(text, state)?;
        text.push_str(at(
            &["m() { return this; } ", "n() { return this; } "],
            pick(state, 2),
        ))?;
    }
    text.push_str("} ")
}

fn line_text(alloc: Global, state: &mut u32) -> Result<String, AllocError> {
    let mut text = String::from_str(alloc, "format2; features F, G, H; ")?;
    for name in &NAMES[..5] {
        add_class(&mut text, state, name)?;
    }
    Ok(text)
}

/// The selection of the features whose bits are set.
fn selection_of(on: u32) -> Selection {
    let mut selection = Selection::none(FEATURES);
    for feature in 0..FEATURES {
        if on >> (feature as u32) & 1 == 1 && feature < selection.features() {
            selection = selection.with(feature);
        }
    }
    selection
}

/// Whether the circuit is over the project's features.
fn fits(circuit: &Circuit, line: &Project) -> bool
    ensures { IsTrue result → circuit.now.features ≡ length line.now.model.features }
{
    circuit.features() as usize == line.model().features.slice().len()
}

/// Whether the selection is over the project's features.
fn is_over(selection: &Selection, line: &Project) -> bool
    ensures { IsTrue result → selection.now.features ≡ length line.now.model.features }
{
    selection.features() as usize == line.model().features.slice().len()
}

/// Whether the gate is one of the circuit, and is true under the selection.
fn is_true(circuit: &Circuit, gate: u64, selection: &Selection) -> bool {
    gate < circuit.gates()
        && selection.features() == circuit.features()
        && circuit.eval(gate, selection)
}

/// Whether so many classes are a front part of the chain.
fn is_part(table: &ClassTable<'_>, class: &Name, part: usize) -> bool
    ensures { IsTrue result → part ≤ length (chain table.now class.now) }
{
    part <= table.chain(class).len()
}

/// What is asked about a class: another class, the name of a field, and that of a method.
#[derive(Clone, Copy)]
struct Asked<'a> {
    class: &'a Name,
    other: &'a Name,
    field: &'a Name,
    method: &'a Name,
}

/// What the gates of look-ups say of a selection, where the circuit is one of the line.
fn told_by_gates<'a>(
    alloc: Global,
    line: &'a Project,
    table: &ClassTable<'a>,
    circuit: &mut Circuit,
    asked: &Asked<'_>,
    selection: &Selection,
) -> Result<Option<String>, AllocError>
    requires { table.now ≡ line.now.classes }
{
    let mut told = String::new(alloc);
    let none = Colors::empty();
    if !fits(circuit, line) {
        return Ok(None);
    }
    let known = known_within(line, table, circuit, none, asked.class)?;
    if is_true(circuit, known, selection) {
        told.push_str("known ")?;
    }
    if !fits(circuit, line) {
        return Ok(None);
    }
    let below = subtype_within(line, table, circuit, none, asked.class, asked.other)?;
    if is_true(circuit, below, selection) {
        told.push_str("below ")?;
    }
    if !fits(circuit, line) {
        return Ok(None);
    }
    let types = field_within(alloc, line, table, circuit, none, asked.class, asked.field)?;
    for found in types.iter() {
        if is_true(circuit, found.gate, selection) {
            told.push_str(found.item.text())?;
            told.push_str(" ")?;
        }
    }
    if !fits(circuit, line) {
        return Ok(None);
    }
    let methods = method_within(alloc, line, table, circuit, none, asked.class, asked.method)?;
    for found in methods.iter() {
        if is_true(circuit, found.gate, selection) {
            let method = found.item.method;
            let part = format!(in alloc; "{}~{} ", found.item.class.name.text(), method.alt)?;
            told.push_str(part.as_str())?;
        }
    }
    match fields_by_gates(alloc, line, table, circuit, asked.class, selection)? {
        None => Ok(None),
        Some(fields) => {
            told.push_str(fields.as_str())?;
            Ok(Some(told))
        }
    }
}

/// All fields of a class by the gates, of each number of classes that the chain has by the gates.
fn fields_by_gates<'a>(
    alloc: Global,
    line: &'a Project,
    table: &ClassTable<'a>,
    circuit: &mut Circuit,
    class: &Name,
    selection: &Selection,
) -> Result<Option<String>, AllocError>
    requires { table.now ≡ line.now.classes }
{
    let mut told = String::new(alloc);
    let none = Colors::empty();
    if !fits(circuit, line) {
        return Ok(None);
    }
    let parts = parts_within(alloc, line, table, circuit, none, class)?;
    for part in parts.iter() {
        if !fits(circuit, line) || !is_part(table, class, part.item) {
            return Ok(None);
        }
        let fields = all_fields_within(alloc, line, table, circuit, none, class, part.item)?;
        if is_true(circuit, part.gate, selection) {
            told.push_str("of ")?;
            for found in fields.iter() {
                if is_true(circuit, found.gate, selection) {
                    tell_field(&mut told, found.item)?;
                }
            }
        }
    }
    Ok(Some(told))
}

/// Adds the type and the name of a field.
fn tell_field(told: &mut String, field: &Field) -> Result<(), AllocError> {
    told.push_str(field.of.text())?;
    told.push_str(" ")?;
    told.push_str(field.name.text())?;
    told.push_str(", ")
}

/// The first class of a chain that declares a method.
fn declaring<'a>(chain: &[&'a Class], method: &Name) -> Option<&'a Class> {
    for class in chain {
        if class
            .methods
            .slice()
            .iter()
            .any(|found| found.name == *method)
        {
            return Some(class);
        }
    }
    None
}

/// What the look-ups of a variant say.
fn told_by_variant(
    alloc: Global,
    table: &ClassTable<'_>,
    asked: &Asked<'_>,
) -> Result<String, AllocError> {
    let mut told = String::new(alloc);
    if table.is_known(asked.class) {
        told.push_str("known ")?;
    }
    if table.is_subtype(asked.class, asked.other) {
        told.push_str("below ")?;
    }
    if let Some(field) = table.field_of(asked.class, asked.field) {
        told.push_str(field.of.text())?;
        told.push_str(" ")?;
    }
    let chain = table.chain(asked.class);
    if let Some(class) = declaring(chain, asked.method)
        && let Some(method) = table.method_of(asked.class, asked.method)
    {
        let part = format!(in alloc; "{}~{} ", class.name.text(), method.alt)?;
        told.push_str(part.as_str())?;
    }
    told.push_str("of ")?;
    for class in chain.iter().rev() {
        for field in class.fields.slice() {
            tell_field(&mut told, field)?;
        }
    }
    Ok(told)
}

/// Whether both agree on a class of a line under each selection.
fn agree(alloc: Global, line: &Project, asked: &Asked<'_>) -> Result<bool, AllocError> {
    let table = ClassTable::of(alloc, line)?;
    let mut circuit = Circuit::new(alloc, FEATURES)?;
    for on in 0..8u32 {
        let selection = selection_of(on);
        let Some(told) = told_by_gates(alloc, line, &table, &mut circuit, asked, &selection)? else {
            return Ok(false);
        };
        if !is_over(&selection, line) {
            return Ok(false);
        }
        let variant = project(alloc, line, &selection)?;
        let table = ClassTable::of(alloc, &variant)?;
        if told_by_variant(alloc, &table, asked)?.as_str() != told.as_str() {
            return Ok(false);
        }
    }
    Ok(true)
}

/// Whether both agree on all names in a line.
fn all_agree(alloc: Global, line: &Project) -> Result<bool, AllocError> {
    for class in NAMES {
        for other in NAMES {
            for member in ["f", "g"] {
                let Some(class) = Name::of(alloc, class)? else {
                    return Ok(false);
                };
                let Some(other) = Name::of(alloc, other)? else {
                    return Ok(false);
                };
                let Some(field) = Name::of(alloc, member)? else {
                    return Ok(false);
                };
                let Some(method) = Name::of(alloc, if member == "f" { "m" } else { "n" })? else {
                    return Ok(false);
                };
                let asked = Asked {
                    class: &class,
                    other: &other,
                    field: &field,
                    method: &method,
                };
                if !agree(alloc, line, &asked)? {
                    return Ok(false);
                }
            }
        }
    }
    Ok(true)
}

#[test]
fn gates_say_what_each_variant_says(rt: HostRuntime) -> Result<(), Fail> {
    let alloc = rt.alloc();
    let mut state = 1u32;
    for number in 0..40u32 {
        let text = line_text(alloc, &mut state)?;
        assert!(rt; text.len() < 100_000);
        let Ok(line) = parse_project(alloc, text.as_str().as_bytes()) else {
            assert!(rt; false, "line {number} is none: {}", text.as_str());
            return Ok(());
        };
        assert!(rt;
            all_agree(alloc, &line)?,
            "line {number}: {}",
            text.as_str()
        );
    }
    Ok(())
}
