//! Words, identifiers and names.

ghost use Rattle.std.specs.Prelude.{◌≡◌, ℕ, ◌≤◌, true, false, IfOk, IfSome, IfNone, IsTrue, length};
ghost use Rattle.std.specs.List.{list_all, list_any};
ghost use Rattle.std.specs.Str.{chars, bytes_eq};
ghost use Rattle.std.specs.Cmp.Lexicographic.{slice_cmp};
ghost use Rattle.std.specs.Cmp.{partial_order_from_own_ties};
ghost use Rattle.std.specs.Cmp.Rules.{comparing, hashing};
ghost use Rattle.std.specs.Hash as fed;
ghost use Rattle.std.specs.Ordering.{as_partial_cmp, nat_cmp};
ghost use Rattle.std.proofs.Common.{rules};
ghost use Rattle.cfj_words.specs.Names as spec;

use crate::character::split_first;
use crate::copied::Copied;
use crate::spelling::Spelling;
use std::alloc::{AllocError, Global};
use std::cmp::Ordering;
use std::hash::{Hash, Hasher};
use std::marker::Model;

/// The most bytes in a name.
pub const MOST_NAME_BYTES: usize = 255;

fn is_among(words: &[&str], text: &str) -> bool
    ensures { result ≡ list_any (λ word. bytes_eq word.now text.now) words.now }
{
    words.iter().any(|word| *word == text)
}

fn first_byte(text: &str) -> u8
    ensures { result ≡ spec.first_byte text.now }
{
    match text.as_bytes() {
        [first, ..] => *first,
        [] => 0,
    }
}

/// Whether a text is one of Java's reserved words, which name nothing.
pub fn is_reserved(text: &str) -> bool
    ensures { result ≡ spec.is_reserved text.now }
{
    // A word is compared with those alone that begin as it does.
    match first_byte(text) {
        b'_' => is_among(&["_"], text),
        b'a' => is_among(&["abstract", "assert"], text),
        b'b' => is_among(&["boolean", "break", "byte"], text),
        b'c' => is_among(
            &["case", "catch", "char", "class", "const", "continue"],
            text,
        ),
        b'd' => is_among(&["default", "do", "double"], text),
        b'e' => is_among(&["else", "enum", "extends"], text),
        b'f' => is_among(&["final", "finally", "float", "for", "false"], text),
        b'g' => is_among(&["goto"], text),
        b'i' => is_among(
            &[
                "if",
                "implements",
                "import",
                "instanceof",
                "int",
                "interface",
            ],
            text,
        ),
        b'l' => is_among(&["long"], text),
        b'n' => is_among(&["native", "new", "null"], text),
        b'p' => is_among(&["package", "private", "protected", "public"], text),
        b'r' => is_among(&["return"], text),
        b's' => is_among(
            &[
                "short",
                "static",
                "strictfp",
                "super",
                "switch",
                "synchronized",
            ],
            text,
        ),
        b't' => is_among(
            &["this", "throw", "throws", "transient", "try", "true"],
            text,
        ),
        b'v' => is_among(&["void", "volatile"], text),
        b'w' => is_among(&["while"], text),
        _ => false,
    }
}

/// Whether a word may begin with this character.
pub fn starts_word(ch: char) -> bool
    ensures { result ≡ spec.starts_word ch }
{
    unicode_ident::is_xid_start(ch) || ch == '_' || ch == '$'
}

/// Whether a word may go on with this character.
pub fn continues_word(ch: char) -> bool
    ensures { result ≡ spec.continues_word ch }
{
    unicode_ident::is_xid_continue(ch) || ch == '$'
}

/// Whether a text is a word that isn't reserved, of any length.
pub fn is_identifier(text: &str) -> bool
    ensures { result ≡ spec.is_identifier text.now }
{
    is_word(text) && !is_reserved(text)
}

fn continues(rest: &str) -> bool
    ensures { result ≡ list_all spec.continues_word (chars rest.now) }
{
    rest.chars().all(continues_word)
}

fn is_word(text: &str) -> bool
    ensures { result ≡ spec.is_word (chars text.now) }
{
    match split_first(text) {
        Some((first, rest)) => starts_word(first) && continues(rest),
        None => false,
    }
}

fn is_name(text: &str) -> bool
    ensures { result ≡ spec.is_name text.now }
{
    (is_identifier(text) && text.len() <= MOST_NAME_BYTES) || text == "this"
}

/// An identifier of at most 255 bytes, or `this`.
///
/// Contracts see it as its text. In a class or a feature model nothing but a variable is named `this`.
#[derive(Debug, Drop)]
pub struct Name {
    text: Spelling,
}

impl Model for Name {
    ghost use Rattle.std.specs.Prelude.{◌≡◌, List, ℕ, true};
    ghost use Rattle.cfj_words.specs.Names.{is_name};
    ghost use Rattle.cfj_words.specs.Spellings.{spelling_bytes};

    ghost Value = { List ℕ };

    ghost view = { λ n. spelling_bytes n.text };

    ghost invariant = { λ n. is_name (spelling_bytes n.text) ≡ true };
}

impl Name {
    /// The name with this text; `None` exactly where the text is neither an identifier of at most 255 bytes nor `this`.
    pub fn of(alloc: Global, text: &str) -> Result<Option<Name>, AllocError>
        ensures found { IfOk result (λ found. IfSome found (λ name. (name ≡ text.now) × IsTrue (spec.is_name text.now))) }
        ensures none { IfOk result (λ found. IfNone found (spec.is_name text.now ≡ false)) }
    {
        if !is_name(text) {
            return Ok(None);
        }
        let text = Spelling::of(alloc, text)?;
        Ok(Some(Name { text }))
    }

    /// The name with this text, which is known to be one and isn't looked at again.
    pub fn known(alloc: Global, text: &str) -> Result<Name, AllocError>
        requires { spec.is_name text.now ≡ true }
        ensures { IfOk result (λ name. name ≡ text.now) }
    {
        let text = Spelling::of(alloc, text)?;
        Ok(Name { text })
    }

    /// Its text.
    pub fn text(&self) -> &str
        ensures value { result.now ≡ self.now }
        ensures named { IsTrue (spec.is_name self.now) }
    {
        self.text.text()
    }

    /// The same name, in memory of its own.
    pub fn copy(&self, alloc: Global) -> Result<Name, AllocError>
        ensures { IfOk result (λ name. name ≡ self.now) }
    {
        let text = Spelling::of(alloc, self.text.text())?;
        Ok(Name { text })
    }
}

impl Copied for Name {
    fn copied(&self, alloc: Global) -> Result<Name, AllocError> {
        self.copy(alloc)
    }
}

impl PartialEq for Name {
    ghost eq = { bytes_eq };

    ghost laws = { Prim.search (comparing, rules) };

    fn eq(&self, other: &Name) -> bool {
        self.text() == other.text()
    }
}

impl Eq for Name {
    ghost laws = { Prim.search (comparing, rules) };
}

/// By the bytes of their texts.
impl Ord for Name {
    ghost cmp = { slice_cmp nat_cmp };

    ghost total = { Prim.search (comparing, rules) };

    ghost matches_partial_cmp = { Prim.search (comparing, rules) };

    ghost matches_eq = { Prim.search (comparing, rules) };

    fn cmp(&self, other: &Name) -> Ordering {
        self.text().cmp(other.text())
    }
}

impl PartialOrd for Name {
    ghost partial_cmp = { as_partial_cmp (slice_cmp nat_cmp) };

    ghost laws = { partial_order_from_own_ties (Prim.search (comparing, rules))
        (Prim.search (comparing, rules)) };

    fn partial_cmp(&self, other: &Name) -> Option<Ordering> {
        Some(self.cmp(other))
    }
}

impl Hash for Name {
    ghost hash_input = { λ n. fed.str n };

    ghost respects_eq = { Prim.search (hashing, rules) };

    fn hash<H: Hasher>(&self, state: &mut H) {
        self.text().hash(state);
    }
}
