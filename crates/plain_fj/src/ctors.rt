//! The rules of a constructor.

ghost use Rattle.std.specs.Prelude.{◌≡◌, IfOk, OnOk, flat_map, map};
ghost use Rattle.cfj_model.specs.Judging as spec;
ghost use Rattle.cfj_model.specs.LookUps.{fields_of};
ghost use Rattle.class_table.specs.ByName.{seen};
ghost use Rattle.plain_fj.specs.Breaking.{Adds, judged_ctor_param};

use crate::same_names::{are_same, field_names, param_names, push_names, sent_names};
use crate::site_break::{Break, note};
use crate::wanted::{field_types, param_types};
use cfj_model::{Class, Name, Rule, SiteRef};
use class_table::ClassTable;
use std::alloc::{AllocError, Global};

/// Whether the parameters of a class's constructor are the fields of a chain, by types and by names.
fn takes_fields(alloc: Global, class: &Class, chain: &[&Class]) -> Result<bool, AllocError>
    ensures { IfOk result (λ takes. takes ≡ spec.takes_fields class.now.ctor.params (fields_of (seen chain.now))) }
{
    let params = class.ctor.params.slice();
    let types = param_types(alloc, params)?;
    let wanted = field_types(alloc, chain)?;
    if !are_same(&types, &wanted) {
        return Ok(false);
    }
    let names = param_names(alloc, params)?;
    let wanted = field_names(alloc, chain)?;
    Ok(are_same(&names, &wanted))
}

/// Whether a class's constructor passes the fields of a chain to `super`.
fn sends_fields(alloc: Global, class: &Class, chain: &[&Class]) -> Result<bool, AllocError>
    ensures { IfOk result (λ sends. sends ≡ spec.are_same (map (λ s. s.name) class.now.ctor.sends) (map (λ f. f.name) (fields_of (seen chain.now)))) }
{
    let names = sent_names(alloc, class.ctor.sends.slice())?;
    let wanted = field_names(alloc, chain)?;
    Ok(are_same(&names, &wanted))
}

/// Whether a class's constructor assigns the class's own fields.
fn assigns_fields(alloc: Global, class: &Class) -> Result<bool, AllocError>
    ensures { IfOk result (λ assigns. assigns ≡ spec.are_same (map (λ a. a.name) class.now.ctor.assigns) (map (λ f. f.name) class.now.fields)) }
{
    let names = sent_names(alloc, class.ctor.assigns.slice())?;
    let mut wanted: Vec<&Name> = Vec::new(alloc);
    push_names(&mut wanted, class.fields.slice())?;
    Ok(are_same(&names, &wanted))
}

/// Adds the breaks at the parameters of a class's constructor.
fn judge_ctor_params<'a>(
    table: &ClassTable<'a>,
    class: &'a Class,
    breaks: &mut Vec<Break<'a>>,
) -> Result<(), AllocError>
    ensures { OnOk result (Adds breaks.old.items breaks.new.items (flat_map (judged_ctor_param table.now class.now) class.now.ctor.params)) }
{
    'each: for param in class.ctor.params.slice() {
        let site = SiteRef::CtorParam(&class.name, param.slot);
        note(breaks, site, Rule::K1, !table.is_known(&param.of))?;
    }
    Ok(())
}

/// Adds the breaks at a class's constructor.
pub fn judge_ctor<'a>(
    alloc: Global,
    table: &ClassTable<'a>,
    class: &'a Class,
    breaks: &mut Vec<Break<'a>>,
) -> Result<(), AllocError>
    ensures { OnOk result (Adds breaks.old.items breaks.new.items (spec.judged_ctor table.now class.now)) }
{
    let site = SiteRef::Ctor(&class.name);
    let takes = takes_fields(alloc, class, table.chain(&class.name))?;
    note(breaks, site, Rule::K4, !takes)?;
    let sends = sends_fields(alloc, class, table.chain(&class.parent))?;
    note(breaks, site, Rule::K5, !sends)?;
    let assigns = assigns_fields(alloc, class)?;
    note(breaks, site, Rule::K6, !assigns)?;
    judge_ctor_params(table, class, breaks)
}
