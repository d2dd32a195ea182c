//! The fields of requests.

ghost use Rattle.std.specs.Prelude.{◌≡◌};
ghost use Rattle.session_requests.specs.Ops as spec;

/// A field of a request: a member of its object beside `op`.
#[derive(Clone, Copy, Debug, PartialEq, Eq)]
pub enum Field {
    /// `base`: the version that an edit was made for.
    Base,
    /// `class`: the name of a class.
    Class,
    /// `path`: the path of a field or a method of a class.
    Member,
    /// `path`: the path of any node.
    Path,
    /// `text`: what is new, as text.
    Text,
    /// `super`: the name of a superclass, as text.
    Super,
    /// `colors`: the marks of a node.
    Colors,
    /// `select`: the features of a variant.
    Select,
    /// `feature`: the feature whose nodes are viewed.
    Feature,
}

impl Field {
    /// The key of its member.
    pub fn key(self) -> &'static str
        ensures { result.now ≡ spec.key self }
    {
        match self {
            Field::Base => "base",
            Field::Class => "class",
            Field::Member | Field::Path => "path",
            Field::Text => "text",
            Field::Super => "super",
            Field::Colors => "colors",
            Field::Select => "select",
            Field::Feature => "feature",
        }
    }
}
