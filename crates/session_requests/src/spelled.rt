//! What texts stand for.

ghost use Rattle.std.specs.Prelude.{◌≡◌, ◌∷◌, List, ℕ, IfOk, IfSome, IfNone, MatchOption, true, false};
ghost use Rattle.cfj_words.specs.Names.{is_short_identifier};
ghost use Rattle.cfj_model.specs.Sites.{site_text, IsPath, member_site};
ghost use Rattle.cfj_model.specs.declared.member_name.MemberName.{MemberName as SeenMember};
ghost use Rattle.session_requests.specs.Fields.{mark_text};

use cfj_model::{MOST_NAME_BYTES, MemberName, Name, Signed, Site, is_identifier, read_site};
use std::alloc::{AllocError, Global};
use std::mem;

/// What a text of a request stands for.
pub(crate) trait Spelled {
    ghost use Rattle.std.specs.Prelude.{ℕ, List};

    // The text of a value, and that the value may stand in a request.
    ghost spelling: { Self → List ℕ };

    ghost IsFine: { Self → Type 0 };

    /// What a text stands for; `None` exactly where it stands for nothing.
    fn of_text(alloc: Global, text: &str) -> Result<Option<Self>, AllocError>
        ensures found { IfOk result (λ found. IfSome found (λ x. (spelling x ≡ text.now) × IsFine x)) }
        ensures none { IfOk result (λ found. IfNone found ((x : Self) → spelling x ≡ text.now → IsFine x → ⊥)) };
}

/// An identifier of at most 255 bytes.
impl Spelled for Name {
    ghost spelling = { λ name. name };

    ghost IsFine = { λ name. is_short_identifier name ≡ true };

    #[tactic(auto, using(crate::proofs::Marks::no_name))]
    fn of_text(alloc: Global, text: &str) -> Result<Option<Name>, AllocError> {
        read_name(alloc, text)
    }
}

/// The path of a site.
impl Spelled for Site {
    ghost spelling = { site_text };

    ghost IsFine = { IsPath };

    fn of_text(alloc: Global, text: &str) -> Result<Option<Site>, AllocError> {
        read_site(alloc, text)
    }
}

/// The path of a field or of a method.
impl Spelled for MemberName {
    ghost spelling = { λ member. site_text (member_site member) };

    ghost IsFine = { λ member. IsPath (member_site member) };

    fn of_text(alloc: Global, text: &str) -> Result<Option<MemberName>, AllocError> {
        match read_site(alloc, text)? {
            Some(site) => Ok(member_of(site)),
            None => Ok(None),
        }
    }
}

/// An identifier, or `!` and an identifier.
impl Spelled for Signed {
    ghost spelling = { mark_text };

    ghost IsFine = { λ mark. is_short_identifier mark.name ≡ true };

    #[tactic(auto, using(crate::proofs::Marks::no_mark, crate::proofs::Marks::no_off_mark))]
    fn of_text(alloc: Global, text: &str) -> Result<Option<Signed>, AllocError> {
        if let Some(name) = read_name(alloc, text)? {
            return Ok(Some(Signed { off: false, name }));
        }
        match behind_sign(text) {
            Some(name) => off_mark(alloc, name),
            None => Ok(None),
        }
    }
}

/// The mark with a `!` and this name.
fn off_mark(alloc: Global, name: &str) -> Result<Option<Signed>, AllocError>
    ensures found { IfOk result (λ found. IfSome found (λ mark. (mark ≡ record { off = true; name = name.now }) × (is_short_identifier name.now ≡ true))) }
    ensures none { IfOk result (λ found. IfNone found (is_short_identifier name.now ≡ false)) }
{
    match read_name(alloc, name)? {
        Some(name) => Ok(Some(Signed { off: true, name })),
        None => Ok(None),
    }
}

/// What stands behind the `!` at the front of a text.
fn behind_sign(text: &str) -> Option<&str>
    ensures { MatchOption result ((rest : List ℕ) → text.now ≡ 33 ∷ rest → ⊥) (λ rest. text.now ≡ 33 ∷ rest.now) }
{
    text.strip_prefix('!')
}

/// The identifier with this text; `None` exactly where it is none, or too long.
fn read_name(alloc: Global, text: &str) -> Result<Option<Name>, AllocError>
    ensures found { IfOk result (λ found. IfSome found (λ name. (name ≡ text.now) × (is_short_identifier text.now ≡ true))) }
    ensures none { IfOk result (λ found. IfNone found (is_short_identifier text.now ≡ false)) }
{
    if is_identifier(text) && text.len() <= MOST_NAME_BYTES {
        return Ok(Some(Name::known(alloc, text)?));
    }
    Ok(None)
}

/// The member that a site is.
fn member_of(site: Site) -> Option<MemberName>
    ensures { MatchOption result ((member : SeenMember) → site ≡ member_site member → ⊥) (λ member. site ≡ member_site member) }
{
    match site {
        Site::Field(class, name, alt) => Some(MemberName::Field(class, name, alt)),
        Site::Method(class, name, alt) => Some(MemberName::Method(class, name, alt)),
        // A site is dropped as a whole.
        other => {
            mem::drop(other);
            None
        }
    }
}
