//! The rules of a class and of what it declares.

ghost use Rattle.std.specs.Prelude.{◌≡◌, IfOk, OnOk};
ghost use Rattle.cfj_model.specs.Judging.{judged_class};
ghost use Rattle.cfj_model.specs.LookUps as spec;
ghost use Rattle.class_table.specs.ByName.{seen};
ghost use Rattle.plain_fj.specs.Alternatives.{DoAltsRise};
ghost use Rattle.plain_fj.specs.Breaking.{Adds};

use crate::ctors::judge_ctor;
use crate::fields::judge_fields;
use crate::methods::judge_methods;
use crate::site_break::{Break, note};
use cfj_model::{Class, Name, Rule, SiteRef};
use class_table::{ClassTable, is_extended};
use std::alloc::{AllocError, Global};

/// The classes of a chain but that of this name.
fn ancestors<'a>(
    alloc: Global,
    chain: &[&'a Class],
    name: &Name,
) -> Result<Vec<&'a Class>, AllocError>
    ensures { IfOk result (λ found. seen found.items ≡ spec.without name.now (seen chain.now)) }
{
    let mut found: Vec<&'a Class> = Vec::new(alloc);
    'each: for class in chain {
        let class = *class;
        if class.name.text() != name.text() {
            found.push(class)?;
        }
    }
    Ok(found)
}

/// Adds the breaks of a class.
pub fn judge_class<'a>(
    alloc: Global,
    table: &ClassTable<'a>,
    class: &'a Class,
    breaks: &mut Vec<Break<'a>>,
) -> Result<(), AllocError>
    requires { DoAltsRise class.now }
    ensures { OnOk result (Adds breaks.old.items breaks.new.items (judged_class table.now class.now)) }
{
    let site = SiteRef::Class(&class.name);
    let chain = table.chain(&class.name);
    note(breaks, site, Rule::K1, !table.is_known(&class.parent))?;
    note(breaks, site, Rule::K2, is_extended(chain, &class.name))?;
    let ancestors = ancestors(alloc, chain, &class.name)?;
    judge_fields(table, class, &ancestors, breaks)?;
    judge_ctor(alloc, table, class, breaks)?;
    judge_methods(alloc, table, class, &ancestors, breaks)
}
