//! What an edit names.

ghost use Rattle.std.specs.Prelude.{◌≡◌, None, Some, IfOk, IfErr, OnOk};
ghost use Rattle.std.specs.Option.{option_map};
ghost use Rattle.cfj_model.specs.Sites.{site_ref_seen};
ghost use Rattle.edit_ops.specs.Named as spec;

use crate::found::has_site;
use cfj_model::{Edit, Project, Site, SiteRef};
use std::alloc::{AllocError, Global};

/// The class, the member or the node that an edit names; `None` for a new class and for another model.
pub fn named(edit: &Edit) -> Option<SiteRef<'_>>
    ensures { option_map site_ref_seen result ≡ spec.named edit.now }
{
    match edit {
        Edit::AddClass { .. } | Edit::SetModel { .. } => None,
        Edit::RemoveClass { class }
        | Edit::AddMember { class, .. }
        | Edit::SetSuper { class, .. }
        | Edit::SetConstructor { class, .. } => Some(SiteRef::Class(class)),
        Edit::ReplaceMember { member, .. } | Edit::RemoveMember { member } => {
            Some(member.site())
        }
        Edit::SetColors { site, .. } => Some(site.as_ref()),
    }
}

/// Whether a project has what an edit names; else what isn't there.
///
/// # Errors
///
/// There is no memory to name it.
pub fn finds(alloc: Global, project: &Project, edit: &Edit) -> Result<Result<(), Site>, AllocError>
    ensures there { IfOk result (λ found. OnOk found (spec.missing project.now edit.now ≡ None)) }
    ensures missing { IfOk result (λ found. IfErr found (λ site. spec.missing project.now edit.now ≡ Some site)) }
{
    match named(edit) {
        Some(site) if !has_site(project, site) => Ok(Err(site.to_site(alloc)?)),
        _ => Ok(Ok(())),
    }
}
