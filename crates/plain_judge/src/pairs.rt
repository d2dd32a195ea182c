//! The pairs of a site and a rule of a project.

ghost use Rattle.std.specs.Prelude.{◌≡◌, ◌++◌, [], IfOk, OnOk, flat_map};
ghost use Rattle.cfj_model.specs.Judging.{pairs_of};
ghost use Rattle.unit_facts.specs.Pairs as spec;

use crate::body::Body;
use crate::nodes::add_nodes;
use crate::site_rules::add;
use cfj_model::{Class, Method, Project, Rule, Site, SiteRef};
use std::alloc::{AllocError, Global};

/// Adds the rules at the fields of a class.
fn add_fields(alloc: Global, pairs: &mut Vec<(Site, Rule)>, class: &Class) -> Result<(), AllocError>
    ensures { OnOk result (pairs.new.items ≡ pairs.old.items ++ flat_map (spec.field_pairs class.now) class.now.fields) }
{
    'each: for field in class.fields.slice() {
        let site = SiteRef::Field(&class.name, &field.name, field.alt);
        add(alloc, pairs, site, &[Rule::K1, Rule::K3, Rule::K9])?;
    }
    Ok(())
}

/// Adds the rules at the parameters of a class's constructor.
fn add_ctor_params(
    alloc: Global,
    pairs: &mut Vec<(Site, Rule)>,
    class: &Class,
) -> Result<(), AllocError>
    ensures { OnOk result (pairs.new.items ≡ pairs.old.items ++ flat_map (spec.ctor_param_pairs class.now) class.now.ctor.params) }
{
    'each: for param in class.ctor.params.slice() {
        let site = SiteRef::CtorParam(&class.name, param.slot);
        add(alloc, pairs, site, &[Rule::K1])?;
    }
    Ok(())
}

/// Adds the rules at a class's constructor and its parameters.
fn add_ctor(alloc: Global, pairs: &mut Vec<(Site, Rule)>, class: &Class) -> Result<(), AllocError>
    ensures { OnOk result (pairs.new.items ≡ pairs.old.items ++ spec.ctor_pairs class.now) }
{
    add(
        alloc,
        pairs,
        SiteRef::Ctor(&class.name),
        &[Rule::K4, Rule::K5, Rule::K6],
    )?;
    add_ctor_params(alloc, pairs, class)
}

/// Adds the rules at the parameters of a method.
fn add_params(
    alloc: Global,
    pairs: &mut Vec<(Site, Rule)>,
    class: &Class,
    method: &Method,
) -> Result<(), AllocError>
    ensures { OnOk result (pairs.new.items ≡ pairs.old.items ++ flat_map (spec.param_pairs class.now method.now) method.now.params) }
{
    'each: for param in method.params.slice() {
        let site = SiteRef::Param(&class.name, &method.name, method.alt, param.slot);
        add(alloc, pairs, site, &[Rule::K1])?;
    }
    Ok(())
}

/// Adds the rules at a method, its parameters and the nodes of its body.
fn add_method(
    alloc: Global,
    pairs: &mut Vec<(Site, Rule)>,
    class: &Class,
    method: &Method,
) -> Result<(), AllocError>
    ensures { OnOk result (pairs.new.items ≡ pairs.old.items ++ spec.method_pairs class.now method.now) }
{
    let site = SiteRef::Method(&class.name, &method.name, method.alt);
    add(
        alloc,
        pairs,
        site,
        &[Rule::K1, Rule::K7, Rule::K8, Rule::K9],
    )?;
    add_params(alloc, pairs, class, method)?;
    let body = Body {
        alloc,
        class: &class.name,
        method: &method.name,
        alt: method.alt,
    };
    add_nodes(&body, pairs, &method.body, &[])
}

/// Adds the rules at the methods of a class.
fn add_methods(
    alloc: Global,
    pairs: &mut Vec<(Site, Rule)>,
    class: &Class,
) -> Result<(), AllocError>
    ensures { OnOk result (pairs.new.items ≡ pairs.old.items ++ flat_map (spec.method_pairs class.now) class.now.methods) }
{
    'each: for method in class.methods.slice() {
        add_method(alloc, pairs, class, method)?;
    }
    Ok(())
}

/// Adds the rules at a class and within it.
fn add_class(alloc: Global, pairs: &mut Vec<(Site, Rule)>, class: &Class) -> Result<(), AllocError>
    ensures { OnOk result (pairs.new.items ≡ pairs.old.items ++ spec.class_pairs class.now) }
{
    add(
        alloc,
        pairs,
        SiteRef::Class(&class.name),
        &[Rule::K1, Rule::K2],
    )?;
    add_fields(alloc, pairs, class)?;
    add_ctor(alloc, pairs, class)?;
    add_methods(alloc, pairs, class)
}

/// The pairs of a site and a rule of a project, in the order of the text, the rules of a site in their order.
pub fn pairs_of(alloc: Global, project: &Project) -> Result<Vec<(Site, Rule)>, AllocError>
    ensures { IfOk result (λ pairs. pairs.items ≡ pairs_of project.now.classes) }
{
    let mut pairs: Vec<(Site, Rule)> = Vec::new(alloc);
    'each: for place in 0..project.class_count() {
        add_class(alloc, &mut pairs, project.class(place))?;
    }
    Ok(pairs)
}
