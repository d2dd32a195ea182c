//! What a token is in its text.

/// What a token is in its text; the names are those that a rule or a limit is about, the numbers how many constructs are open
/// with the token's own.
#[derive(Clone, Copy)]
pub enum Role<'a> {
    /// The word of the line for format two.
    FormatLine,
    /// The name of a feature, where it is declared.
    FeatureName(&'a str),
    /// The name in a mark.
    MarkName(&'a str),
    /// The name of a feature in a formula.
    FormulaName(&'a str),
    /// The name of a feature elsewhere.
    KnownName(&'a str),
    /// The name of a class.
    ClassName(&'a str),
    /// The name of a field.
    FieldName(&'a str),
    /// The name of a method.
    MethodName(&'a str),
    /// The name of a parameter of a constructor.
    ParamName(&'a str),
    /// The name of a parameter of a method.
    MethodParamName(&'a str),
    /// A name that is sent.
    SentName(&'a str),
    /// The first name of an assignment.
    AssignedName(&'a str),
    /// The name of a variable in an expression.
    VarName(&'a str),
    /// Any other identifier.
    UsedName(&'a str),
    /// The `!` of a mark.
    Sign,
    /// A constant of a formula, or a connective that isn't open over what follows.
    FormulaNode,
    /// A `!`, or a `->`.
    FormulaOpens(usize),
    /// The bracket of an argument list, of an expression or of a formula.
    Opens(usize),
    /// The bracket that opens a cast.
    Casts(usize),
    /// The own token of another node of an expression: `this`, `new`, or the dot of an access or a call.
    Node,
    /// Any other token.
    Other,
}
