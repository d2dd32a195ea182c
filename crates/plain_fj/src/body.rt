//! What an expression is judged by.

ghost use Rattle.std.specs.Prelude.{◌≡◌, OnOk, find};
ghost use Rattle.std.specs.Option.{option_copied};
ghost use Rattle.std.specs.Str.{bytes_eq};
ghost use Rattle.plain_fj.specs.Found.{IsNameJudged, types_in};

use crate::node_break::{NodeBreak, note_node};
use cfj_model::{Name, Param, Rule};
use class_table::ClassTable;
use std::alloc::{AllocError, Global};

/// Which variables an expression may name.
#[derive(Clone, Copy)]
pub enum Scope<'a> {
    /// In a method of this class and with these parameters: `this` and the parameters.
    Of(&'a Name, &'a [Param]),
    /// By itself: none.
    Nothing,
}

/// What an expression is judged by: a method's body, or an expression by itself.
#[derive(Clone, Copy)]
pub struct Body<'a, 't> {
    /// For lists of types.
    pub alloc: Global,
    /// The classes of the project.
    pub table: &'t ClassTable<'a>,
    /// The variables.
    pub scope: Scope<'a>,
}

fn param_called<'a>(params: &'a [Param], name: &Name) -> Option<&'a Param>
    ensures { option_copied result ≡ find (λ q. bytes_eq q.name name.now) params.now }
{
    let name = name.text();
    params.iter().find(|param| param.name.text() == name)
}

impl<'a> Scope<'a> {
    /// The type of the variable of a name, if there is such a variable.
    pub fn type_of(self, name: &Name) -> Option<&'a Name>
        ensures { option_copied result ≡ types_in self.entry name.now }
    {
        match self {
            Scope::Of(class, params) => {
                if name.text() == "this" {
                    return Some(class);
                }
                match param_called(params, name) {
                    Some(param) => Some(&param.of),
                    None => None,
                }
            }
            Scope::Nothing => None,
        }
    }
}

impl<'a> Body<'a, '_> {
    /// Adds the break at the node of this slot, which names a class, where the class isn't known.
    pub fn add_unknown(
        &self,
        breaks: &mut Vec<NodeBreak>,
        slot: u16,
        class: &Name,
    ) -> Result<(), AllocError>
        ensures { OnOk result (IsNameJudged self.now slot class.now breaks.old.items breaks.new.items) }
    {
        note_node(breaks, slot, Rule::K1, !self.table.is_known(class))
    }
}
