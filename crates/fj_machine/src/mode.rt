//! What was read last.

ghost use Rattle.std.specs.Prelude.{◌≡◌};
ghost use Rattle.fj_machine.specs.Machine.{takes_name};

/// What parameters belong to.
#[derive(Clone, Copy)]
pub enum Owner {
    /// The constructor.
    Constructor,
    /// A method.
    Method,
}

/// The nodes that marks may stand before.
#[derive(Clone, Copy)]
pub enum Node {
    /// A class.
    Class,
    /// A field; behind its marks no constructor can stand.
    Member,
    /// A method.
    Method,
    /// A parameter.
    Param(Owner),
    /// A sent name.
    Send,
    /// An assignment.
    Assign,
}

/// What was read last, which says what may follow.
#[derive(Clone, Copy)]
pub enum Mode {
    /// Nothing, or the line for format two.
    Begin,
    /// The word of the line for format two.
    AfterFormat,
    /// The word that begins the feature line.
    AfterFeatures,
    /// The name of a feature.
    AfterFeature,
    /// A comma between features.
    AfterFeatureComma,
    /// The feature line, or a constraint.
    Start,
    /// The word that begins a constraint, or some of its formula.
    InConstraint,
    /// A class.
    BetweenClasses,
    /// The `@` of a mark, or its `!`: then it is so.
    AfterAt(Node, bool),
    /// A mark.
    AfterMark(Node),
    /// The type of a field with marks.
    AfterMarkedType,
    /// `class`.
    AfterClass,
    /// The name of a class.
    AfterClassName,
    /// `extends`.
    AfterExtends,
    /// The name of a superclass.
    AfterParent,
    /// The brace that opens a class, or a field.
    InMembers,
    /// The type of a field, or the name of the constructor.
    AfterType,
    /// The name of a field.
    AfterFieldName,
    /// The bracket that opens the parameters.
    InParams(Owner),
    /// A comma between parameters.
    AfterParamComma(Owner),
    /// The type of a parameter.
    AfterParamType(Owner),
    /// The name of a parameter.
    AfterParam(Owner),
    /// The bracket that closes the parameters.
    AfterParams(Owner),
    /// The brace that opens the constructor's body.
    InBody,
    /// `super`.
    AfterSuper,
    /// The bracket that opens the sent names.
    InSends,
    /// A comma between sent names.
    AfterSendComma,
    /// A sent name.
    AfterSend,
    /// The bracket that closes the sent names.
    AfterSends,
    /// The call of `super`, or an assignment.
    InAssigns,
    /// `this`.
    AfterThis,
    /// The dot behind `this`.
    AfterThisDot,
    /// The field that is assigned.
    AfterAssigned,
    /// The sign between the two names of an assignment.
    AfterEquals,
    /// The second name of an assignment.
    AfterSecondName,
    /// The constructor, or a method.
    InMethods,
    /// The type of a method's result.
    AfterResult,
    /// The name of a method.
    AfterMethodName,
    /// The brace that opens a method's body.
    InMethodBody,
    /// `return`, or some of the expression behind it.
    InExpression,
    /// A method's body, with the semicolon behind it.
    AfterBody,
    /// The whole text.
    AtEnd,
}

impl Mode {
    /// Whether some identifier could stand next, outside of formulas and expressions.
    pub fn takes_name(self) -> bool
        ensures { result ≡ takes_name self }
    {
        match self {
            Mode::Begin
            | Mode::Start
            | Mode::AfterFeatures
            | Mode::AfterFeatureComma
            | Mode::AfterAt(..)
            | Mode::AfterMark(Node::Member)
            | Mode::AfterMark(Node::Method)
            | Mode::AfterMark(Node::Param(_))
            | Mode::AfterMark(Node::Send)
            | Mode::AfterMarkedType
            | Mode::AfterClass
            | Mode::AfterExtends
            | Mode::InMembers
            | Mode::AfterType
            | Mode::InParams(_)
            | Mode::AfterParamComma(_)
            | Mode::AfterParamType(_)
            | Mode::InSends
            | Mode::AfterSendComma
            | Mode::AfterThisDot
            | Mode::AfterEquals
            | Mode::InMethods
            | Mode::AfterResult => true,
            _ => false,
        }
    }
}
