//! The rules of methods.

ghost use Rattle.std.specs.Prelude.{◌≡◌, true, ◌&&◌, IfOk, OnOk, flat_map};
ghost use Rattle.std.specs.Option.{option_copied};
ghost use Rattle.std.specs.Str.{bytes_eq};
ghost use Rattle.cfj_model.specs.Judging as spec;
ghost use Rattle.cfj_model.specs.LookUps as look_up;
ghost use Rattle.cfj_model.specs.Members.{is_again, method_alts_rise, method_name_of, placed};
ghost use Rattle.cfj_model.specs.Typing as typing;
ghost use Rattle.class_table.specs.ByName.{seen};
ghost use Rattle.plain_fj.specs.Alternatives.{IsToldByAlt, behind};
ghost use Rattle.plain_fj.specs.Breaking.{Adds, judged_param};
ghost use Rattle.plain_fj.specs.Found.{judged_break};

use crate::body::{Body, Scope};
use crate::judge::judge;
use crate::node_break::NodeBreak;
use crate::same_names::are_same;
use crate::site_break::{Break, note};
use crate::wanted::param_types;
use cfj_model::{Class, Method, Name, Rule, SiteRef};
use class_table::{ClassTable, nearest_method};
use std::alloc::{AllocError, Global};

/// Whether two methods have the same parameter types and the same result.
fn are_alike(alloc: Global, above: &Method, method: &Method) -> Result<bool, AllocError>
    ensures { IfOk result (λ alike. alike ≡
        (spec.are_same (typing.param_types above.now.params) (typing.param_types method.now.params) && bytes_eq above.now.result method.now.result)) }
{
    let wanted = param_types(alloc, above.params.slice())?;
    let types = param_types(alloc, method.params.slice())?;
    Ok(are_same(&wanted, &types) && above.result.text() == method.result.text())
}

/// Whether the method that the nearest of these classes declares has other parameter types or another result.
fn overrides_wrongly(
    alloc: Global,
    ancestors: &[&Class],
    method: &Method,
) -> Result<bool, AllocError>
    ensures { IfOk result (λ wrongly. wrongly ≡
        spec.is_overridden_wrongly method.now (look_up.first_some (look_up.method_called method.now.name) (seen ancestors.now))) }
{
    match nearest_method(ancestors, &method.name) {
        None => Ok(false),
        Some(above) => {
            let alike = are_alike(alloc, above, method)?;
            Ok(!alike)
        }
    }
}

/// Whether a body has a type that isn't a subtype of the method's result.
fn misses_result(table: &ClassTable<'_>, method: &Method, of: Option<&Name>) -> bool
    ensures { result ≡ spec.is_no_result table.now method.now (option_copied of.entry) }
{
    match of {
        Some(of) => !table.is_subtype(of, &method.result),
        None => false,
    }
}

/// Whether one of the methods before it has a method's name. The first of its name has alt 0, so that most aren't compared.
fn is_method_again(before: &[Method], method: &Method) -> bool
    requires { IsToldByAlt method_name_of method.now.alt (behind before.now method.now) }
    ensures { result ≡ is_again method_name_of (behind before.now method.now) }
{
    let name = method.name.text();
    method.alt != 0 && before.iter().any(|earlier| earlier.name.text() == name)
}

/// Adds the breaks at the parameters of a method.
fn judge_params<'a>(
    table: &ClassTable<'a>,
    class: &'a Class,
    method: &'a Method,
    breaks: &mut Vec<Break<'a>>,
) -> Result<(), AllocError>
    ensures { OnOk result (Adds breaks.old.items breaks.new.items (flat_map (judged_param table.now class.now method.now) method.now.params)) }
{
    'each: for param in method.params.slice() {
        let site = SiteRef::Param(&class.name, &method.name, method.alt, param.slot);
        note(breaks, site, Rule::K1, !table.is_known(&param.of))?;
    }
    Ok(())
}

/// Adds a break at a node of a method's body, at its site.
fn add_node<'a>(
    class: &'a Class,
    method: &'a Method,
    found: &NodeBreak,
    breaks: &mut Vec<Break<'a>>,
) -> Result<(), AllocError>
    ensures { OnOk result (Adds breaks.old.items breaks.new.items (judged_break class.now method.now found.now)) }
{
    let site = SiteRef::Node(&class.name, &method.name, method.alt, found.slot);
    note(breaks, site, found.rule, true)
}

/// Adds the breaks at the nodes of a method's body, at their sites.
fn add_nodes<'a>(
    class: &'a Class,
    method: &'a Method,
    within: &[NodeBreak],
    breaks: &mut Vec<Break<'a>>,
) -> Result<(), AllocError>
    ensures { OnOk result (Adds breaks.old.items breaks.new.items (flat_map (judged_break class.now method.now) within.now)) }
{
    'each: for found in within {
        add_node(class, method, found, breaks)?;
    }
    Ok(())
}

/// Adds the breaks at a method, which stands behind those before it in its class. Those of its body come last, but the body's type
/// says whether the method's own rules break.
fn judge_method<'a>(
    alloc: Global,
    table: &ClassTable<'a>,
    class: &'a Class,
    ancestors: &[&'a Class],
    before: &[Method],
    method: &'a Method,
    breaks: &mut Vec<Break<'a>>,
) -> Result<(), AllocError>
    requires above { seen ancestors.now ≡ look_up.ancestors table.now class.now.name }
    requires alt { IsToldByAlt method_name_of method.now.alt (behind before.now method.now) }
    ensures { OnOk result (Adds breaks.old.items breaks.new.items (spec.judged_method table.now class.now (behind before.now method.now))) }
{
    let body = Body {
        alloc,
        table,
        scope: Scope::Of(&class.name, method.params.slice()),
    };
    let mut within: Vec<NodeBreak> = Vec::new(alloc);
    let of = judge(&body, &method.body, &mut within)?;
    let site = SiteRef::Method(&class.name, &method.name, method.alt);
    note(breaks, site, Rule::K1, !table.is_known(&method.result))?;
    let wrongly = overrides_wrongly(alloc, ancestors, method)?;
    note(breaks, site, Rule::K7, wrongly)?;
    note(breaks, site, Rule::K8, misses_result(table, method, of))?;
    note(breaks, site, Rule::K9, is_method_again(before, method))?;
    judge_params(table, class, method, breaks)?;
    add_nodes(class, method, within.as_slice(), breaks)
}

/// Adds the breaks at the methods that a class itself declares.
pub fn judge_methods<'a>(
    alloc: Global,
    table: &ClassTable<'a>,
    class: &'a Class,
    ancestors: &[&'a Class],
    breaks: &mut Vec<Break<'a>>,
) -> Result<(), AllocError>
    requires above { seen ancestors.now ≡ look_up.ancestors table.now class.now.name }
    requires alts { method_alts_rise class.now.methods ≡ true }
    ensures { OnOk result (Adds breaks.old.items breaks.new.items (flat_map (spec.judged_method table.now class.now) (placed class.now.methods))) }
{
    let methods = class.methods.slice();
    'each: for place in 0..methods.len() {
        judge_method(
            alloc,
            table,
            class,
            ancestors,
            &methods[..place],
            &methods[place],
            breaks,
        )?;
    }
    Ok(())
}
