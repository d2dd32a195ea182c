//! What was met before a place in a text.

ghost use Rattle.std.specs.Prelude.{◌≡◌};
ghost use Rattle.cfj_model.specs.Roles as spec;

use crate::met::Met;
use cfj_model::Format;
use std::alloc::Global;

/// What was met before a place: the format, all features and class names, the marks of the node in hand, the names of the parameters of the method
/// in hand, and how many items each list of the class in hand has and how many nodes stand in all formulas and in the body in hand, with
/// the size.
#[derive(Drop)]
pub struct Tally<'a> {
    pub format: Format,
    pub features: Met<'a>,
    pub formula_nodes: usize,
    pub marks: Met<'a>,
    pub classes: Met<'a>,
    pub fields: usize,
    pub methods: usize,
    pub params: usize,
    pub sends: usize,
    pub assigns: usize,
    pub param_names: Met<'a>,
    pub nodes: usize,
    pub size: usize,
}

impl<'a> Tally<'a> {
    ghost use Rattle.fj_tally.specs.Views.{tally_seen};

    /// Nothing was met; no memory is taken.
    pub fn new(alloc: Global) -> Tally<'a>
        ensures { tally_seen result ≡ spec.nothing }
    {
        Tally {
            format: Format::One,
            features: Met::new(alloc),
            formula_nodes: 0,
            marks: Met::new(alloc),
            classes: Met::new(alloc),
            fields: 0,
            methods: 0,
            params: 0,
            sends: 0,
            assigns: 0,
            param_names: Met::new(alloc),
            nodes: 0,
            size: 0,
        }
    }
}
