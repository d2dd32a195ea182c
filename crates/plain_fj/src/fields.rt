//! The rules of fields.

ghost use Rattle.std.specs.Prelude.{◌≡◌, true, OnOk, flat_map};
ghost use Rattle.cfj_model.specs.Judging.{judged_field};
ghost use Rattle.cfj_model.specs.LookUps as spec;
ghost use Rattle.cfj_model.specs.Members.{field_alts_rise, field_name_of, is_again, placed};
ghost use Rattle.class_table.specs.ByName.{seen};
ghost use Rattle.plain_fj.specs.Breaking.{Adds};
ghost use Rattle.plain_fj.specs.Alternatives.{IsToldByAlt, behind};

use crate::site_break::{Break, note};
use cfj_model::{Class, Field, Rule, SiteRef};
use class_table::{ClassTable, nearest_field};
use std::alloc::AllocError;

/// Whether one of the fields before it has a field's name. The first of its name has alt 0, so that most aren't compared.
fn is_field_again(before: &[Field], field: &Field) -> bool
    requires { IsToldByAlt field_name_of field.now.alt (behind before.now field.now) }
    ensures { result ≡ is_again field_name_of (behind before.now field.now) }
{
    let name = field.name.text();
    field.alt != 0 && before.iter().any(|earlier| earlier.name.text() == name)
}

/// Adds the breaks at a field, which stands behind those before it in its class.
fn judge_field<'a>(
    table: &ClassTable<'a>,
    class: &'a Class,
    ancestors: &[&'a Class],
    before: &[Field],
    field: &'a Field,
    breaks: &mut Vec<Break<'a>>,
) -> Result<(), AllocError>
    requires above { seen ancestors.now ≡ spec.ancestors table.now class.now.name }
    requires alt { IsToldByAlt field_name_of field.now.alt (behind before.now field.now) }
    ensures { OnOk result (Adds breaks.old.items breaks.new.items (judged_field table.now class.now (behind before.now field.now))) }
{
    let site = SiteRef::Field(&class.name, &field.name, field.alt);
    note(breaks, site, Rule::K1, !table.is_known(&field.of))?;
    let hidden = nearest_field(ancestors, &field.name);
    note(breaks, site, Rule::K3, hidden.is_some())?;
    note(breaks, site, Rule::K9, is_field_again(before, field))
}

/// Adds the breaks at the fields that a class itself declares.
pub fn judge_fields<'a>(
    table: &ClassTable<'a>,
    class: &'a Class,
    ancestors: &[&'a Class],
    breaks: &mut Vec<Break<'a>>,
) -> Result<(), AllocError>
    requires above { seen ancestors.now ≡ spec.ancestors table.now class.now.name }
    requires alts { field_alts_rise class.now.fields ≡ true }
    ensures { OnOk result (Adds breaks.old.items breaks.new.items (flat_map (judged_field table.now class.now) (placed class.now.fields))) }
{
    let fields = class.fields.slice();
    'each: for place in 0..fields.len() {
        judge_field(
            table,
            class,
            ancestors,
            &fields[..place],
            &fields[place],
            breaks,
        )?;
    }
    Ok(())
}
