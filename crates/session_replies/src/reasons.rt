//! Refusals.

ghost use Rattle.std.specs.Prelude.{◌≡◌, IfOk, codes};
ghost use Rattle.cfj_model.specs.FaultTexts.{kind_text, limit_text};
ghost use Rattle.cfj_model.specs.Sites.{site_text};
ghost use Rattle.serde_json.specs.Data.{object};
ghost use Rattle.serde_json.specs.View.{view};
ghost use Rattle.session_replies.specs.ReplyData as spec;

use cfj_model::{FaultKind, LimitKind, Name, Site};
use edit_replies::Reason;
use serde_json::{Value, json};
use std::alloc::{AllocError, Global};

/// A refusal at a place.
pub(crate) fn refusal_value(alloc: Global, place: u32, reason: &Reason) -> Result<Value, AllocError>
    ensures { IfOk result (λ value. view value ≡ object (spec.refusal_members place reason.now)) }
{
    match reason {
        Reason::NoVersion { now } => no_version(alloc, place, *now),
        Reason::NoSuch(site) => of_site(alloc, place, site, "NoSuch"),
        Reason::Changed { at } => changed(alloc, place, *at),
        Reason::BadText { at, kind } => bad_text(alloc, place, *at, kind),
        Reason::NotOptional(site) => of_site(alloc, place, site, "NotOptional"),
        Reason::NoFeature(name) => of_name(alloc, place, name, "NoFeature"),
        Reason::Exists(name) => of_name(alloc, place, name, "Exists"),
        Reason::InUse(site) => of_site(alloc, place, site, "InUse"),
        Reason::Limit(limit) => of_limit(alloc, place, *limit),
    }
}

fn no_version(alloc: Global, place: u32, now: u32) -> Result<Value, AllocError>
    ensures { IfOk result (λ value. view value
        ≡ object (spec.has_number (codes "now") now (spec.has_number (codes "place") place (spec.refused (codes "NoVersion"))))) }
{
    json!(in alloc; {"now": now, "place": place, "reason": "NoVersion", "reply": "refused"})
}

fn changed(alloc: Global, place: u32, at: u32) -> Result<Value, AllocError>
    ensures { IfOk result (λ value. view value
        ≡ object (spec.has_number (codes "at") at (spec.has_number (codes "place") place (spec.refused (codes "Changed"))))) }
{
    json!(in alloc; {"at": at, "place": place, "reason": "Changed", "reply": "refused"})
}

fn of_site(alloc: Global, place: u32, site: &Site, reason: &str) -> Result<Value, AllocError>
    ensures { IfOk result (λ value. view value
        ≡ object (spec.has_text (codes "path") (site_text site.now) (spec.has_number (codes "place") place (spec.refused reason.now)))) }
{
    let path = format!(in alloc; "{site}")?;
    json!(in alloc; {"path": path, "place": place, "reason": reason, "reply": "refused"})
}

fn of_name(alloc: Global, place: u32, name: &Name, reason: &str) -> Result<Value, AllocError>
    ensures { IfOk result (λ value. view value
        ≡ object (spec.has_text (codes "name") name.now (spec.has_number (codes "place") place (spec.refused reason.now)))) }
{
    json!(in alloc; {"name": name.text(), "place": place, "reason": reason, "reply": "refused"})
}

fn of_limit(alloc: Global, place: u32, limit: LimitKind) -> Result<Value, AllocError>
    ensures { IfOk result (λ value. view value
        ≡ object (spec.has_text (codes "limit") (limit_text limit) (spec.has_number (codes "place") place (spec.refused (codes "Limit"))))) }
{
    let limit = format!(in alloc; "{limit}")?;
    json!(in alloc; {"limit": limit, "place": place, "reason": "Limit", "reply": "refused"})
}

fn bad_text(alloc: Global, place: u32, at: usize, kind: &FaultKind) -> Result<Value, AllocError>
    ensures { IfOk result (λ value. view value
        ≡ object (spec.has_number (codes "at") at (spec.has_text (codes "fault") (kind_text kind.now)
        (spec.has_number (codes "place") place (spec.refused (codes "BadText")))))) }
{
    let fault = format!(in alloc; "{kind}")?;
    json!(in alloc; {"at": at, "fault": fault, "place": place, "reason": "BadText", "reply": "refused"})
}
