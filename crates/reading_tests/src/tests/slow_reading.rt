//! A slow reading that tries all that the grammar allows.

use cfj_model::ParseFault;
use fj_lexer::{LexFault, Lexer, TokenKind};
use fj_parser::parse_project;
use std::alloc::{AllocError, Global};
use std::test::Fail;

/// The first fault of a text, as its place and its kind; `read` where there is none. A text over the limit of a project's isn't
/// handed to the parser.
fn told(alloc: Global, text: &str) -> Result<String, AllocError> {
    if text.len() > 4_194_304 {
        return String::from_str(alloc, "too long");
    }
    match parse_project(alloc, text.as_bytes()) {
        Ok(_) => String::from_str(alloc, "read"),
        Err(ParseFault::At { at, kind }) => format!(in alloc; "{at}: {kind}"),
        Err(ParseFault::NoMemory) => String::from_str(alloc, "no memory"),
    }
}

/// The parts of the grammar; `More..` stands for what may follow an item of a list.
#[derive(Clone, Copy)]
enum Part {
    Project,
    MoreFeatures,
    Constraints,
    Classes,
    Marks,
    Fields,
    Params,
    MoreParams,
    Param,
    Sends,
    MoreSends,
    Assigns,
    Methods,
    Expr,
    Chain,
    Members,
    Args,
    MoreArgs,
    Iff,
    MoreIff,
    Implies,
    MoreImplies,
    Or,
    MoreOr,
    And,
    MoreAnd,
    Unary,
}

/// What is wanted next of a text.
#[derive(Clone, Copy)]
enum Want {
    /// A token with this text that is no identifier.
    Text(&'static str),
    /// An identifier with this text.
    Word(&'static str),
    /// Any identifier.
    Name,
    /// Any identifier, which becomes the name of the class.
    Class,
    /// The name of the class again.
    SameClass,
    /// Any identifier, which becomes the name that is assigned.
    Assigned,
    /// The name that is assigned again.
    SameAssigned,
    /// A part of the grammar.
    Of(Part),
}

use Part::*;
use Want::{Assigned, Class, Name, Of, SameAssigned, SameClass, Text, Word};

/// The ways in which a part of the grammar may go on, each read from left to right.
fn ways(part: Part) -> &'static [&'static [Want]] {
    match part {
        Project => &[
            &[
                Word("features"),
                Name,
                Of(MoreFeatures),
                Text(";"),
                Of(Constraints),
                Of(Classes),
            ],
            &[Of(Constraints), Of(Classes)],
        ],
        MoreFeatures => &[&[], &[Text(","), Name, Of(MoreFeatures)]],
        Constraints => &[
            &[],
            &[Word("constraint"), Of(Iff), Text(";"), Of(Constraints)],
        ],
        Classes => &[
            &[],
            &[
                Of(Marks),
                Text("class"),
                Class,
                Text("extends"),
                Name,
                Text("{"),
                Of(Fields),
                SameClass,
                Text("("),
                Of(Params),
                Text(")"),
                Text("{"),
                Text("super"),
                Text("("),
                Of(Sends),
                Text(")"),
                Text(";"),
                Of(Assigns),
                Text("}"),
                Of(Methods),
                Text("}"),
                Of(Classes),
            ],
        ],
        Marks => &[&[], &[Text("@"), Name, Of(Marks)]],
        Fields => &[&[], &[Of(Marks), Name, Name, Text(";"), Of(Fields)]],
        Params => &[&[], &[Of(Param), Of(MoreParams)]],
        MoreParams => &[&[], &[Text(","), Of(Param), Of(MoreParams)]],
        Param => &[&[Of(Marks), Name, Name]],
        Sends => &[&[], &[Of(Marks), Name, Of(MoreSends)]],
        MoreSends => &[&[], &[Text(","), Of(Marks), Name, Of(MoreSends)]],
        Assigns => &[
            &[],
            &[
                Of(Marks),
                Text("this"),
                Text("."),
                Assigned,
                Text("="),
                SameAssigned,
                Text(";"),
                Of(Assigns),
            ],
        ],
        Methods => &[
            &[],
            &[
                Of(Marks),
                Name,
                Name,
                Text("("),
                Of(Params),
                Text(")"),
                Text("{"),
                Text("return"),
                Of(Expr),
                Text(";"),
                Text("}"),
                Of(Methods),
            ],
        ],
        Expr => &[
            &[Text("("), Name, Text(")"), Of(Expr)],
            &[Of(Chain), Of(Members)],
        ],
        Chain => &[
            &[Name],
            &[Text("this")],
            &[Text("new"), Name, Text("("), Of(Args), Text(")")],
            &[Text("("), Of(Expr), Text(")")],
        ],
        Members => &[
            &[],
            &[Text("."), Name, Of(Members)],
            &[Text("."), Name, Text("("), Of(Args), Text(")"), Of(Members)],
        ],
        Args => &[&[], &[Of(Marks), Of(Expr), Of(MoreArgs)]],
        MoreArgs => &[&[], &[Text(","), Of(Marks), Of(Expr), Of(MoreArgs)]],
        Iff => &[&[Of(Implies), Of(MoreIff)]],
        MoreIff => &[&[], &[Text("<->"), Of(Implies), Of(MoreIff)]],
        Implies => &[&[Of(Or), Of(MoreImplies)]],
        MoreImplies => &[&[], &[Text("->"), Of(Implies)]],
        Or => &[&[Of(And), Of(MoreOr)]],
        MoreOr => &[&[], &[Text("|"), Of(And), Of(MoreOr)]],
        And => &[&[Of(Unary), Of(MoreAnd)]],
        MoreAnd => &[&[], &[Text("&"), Of(Unary), Of(MoreAnd)]],
        Unary => &[
            &[Text("!"), Of(Unary)],
            &[Name],
            &[Text("true")],
            &[Text("false")],
            &[Text("("), Of(Iff), Text(")")],
        ],
    }
}

/// One way in which a text may go on: what is wanted, the next last, and the names that must be repeated.
#[derive(Drop)]
struct Path<'a> {
    wants: Vec<Want>,
    class: &'a str,
    assigned: &'a str,
}

/// What comes next in a text.
#[derive(Clone, Copy)]
enum Next<'a> {
    /// This identifier.
    Id(&'a str),
    /// Some identifier or other.
    SomeId,
    /// A token that is no identifier.
    Other(&'a str),
    /// The end.
    End,
}

/// The names to be repeated behind the next token, where it is what is wanted.
fn taken<'a>(
    want: Want,
    next: Next<'a>,
    class: &'a str,
    assigned: &'a str,
) -> Option<(&'a str, &'a str)> {
    let same = Some((class, assigned));
    match (want, next) {
        (Text(text), Next::Other(found)) if text == found => same,
        (Word(text), Next::Id(found)) if text == found => same,
        (Name, Next::Id(_)) => same,
        (Class, Next::Id(found)) => Some((found, assigned)),
        (Assigned, Next::Id(found)) => Some((class, found)),
        (SameClass, Next::Id(found)) if class == found => same,
        (SameAssigned, Next::Id(found)) if assigned == found => same,
        (Word(_) | Name | Class | Assigned | SameClass | SameAssigned, Next::SomeId) => same,
        _ => None,
    }
}

/// The paths on which a text may go on behind the next token; one path without wants where it ends.
fn behind<'a>(
    alloc: Global,
    paths: &[Path<'a>],
    next: Next<'a>,
) -> Result<Vec<Path<'a>>, AllocError> {
    let mut open = Vec::new(alloc);
    for path in paths {
        open.push(Path {
            wants: Vec::from_slice(alloc, path.wants.as_slice())?,
            class: path.class,
            assigned: path.assigned,
        })?;
    }
    let mut found = Vec::new(alloc);
    // Each way wants a token sooner or later, and so few parts stand open that the bound is never reached.
    for _ in 0..100_000 {
        let Some(mut path) = open.pop() else {
            return Ok(found);
        };
        match path.wants.pop() {
            None => {
                if matches!(next, Next::End) {
                    found.push(path)?;
                }
            }
            Some(Of(part)) => {
                for way in ways(part) {
                    let mut wants = Vec::from_slice(alloc, path.wants.as_slice())?;
                    for want in way.iter().rev() {
                        wants.push(*want)?;
                    }
                    open.push(Path {
                        wants,
                        class: path.class,
                        assigned: path.assigned,
                    })?;
                }
            }
            Some(want) => {
                if let Some((class, assigned)) = taken(want, next, path.class, path.assigned) {
                    found.push(Path {
                        wants: path.wants,
                        class,
                        assigned,
                    })?;
                }
            }
        }
    }
    Ok(found)
}

/// How a token that can't stand there is named.
fn misplaced<'a>(
    alloc: Global,
    paths: &[Path<'a>],
    kind: TokenKind,
) -> Result<&'static str, AllocError> {
    if kind != TokenKind::Reserved || behind(alloc, paths, Next::SomeId)?.is_empty() {
        return Ok("Unexpected");
    }
    Ok("Reserved")
}

/// The first fault of a text that has none but of its tokens and its grammar, as its place and its kind; `read` where there is none.
fn slowly_told(alloc: Global, text: &str) -> Result<String, AllocError> {
    let mut paths = Vec::new(alloc);
    let mut wants = Vec::new(alloc);
    wants.push(Of(Project))?;
    paths.push(Path {
        wants,
        class: "",
        assigned: "",
    })?;
    let mut lexer = Lexer::new(text);
    // A text has no more tokens than bytes.
    for _ in 0..text.len() {
        let token = match lexer.next() {
            Some(Ok(token)) => token,
            Some(Err(LexFault::BadChar(at))) => return format!(in alloc; "{at}: BadChar"),
            Some(Err(LexFault::OpenComment(at))) => {
                return format!(in alloc; "{at}: OpenComment");
            }
            None => break,
        };
        let next = match token.kind {
            TokenKind::Word => Next::Id(token.text),
            _ => Next::Other(token.text),
        };
        let more = behind(alloc, paths.as_slice(), next)?;
        if more.is_empty() {
            let at = token.at;
            let kind = misplaced(alloc, paths.as_slice(), token.kind)?;
            return format!(in alloc; "{at}: {kind}");
        }
        paths = more;
    }
    if behind(alloc, paths.as_slice(), Next::End)?.is_empty() {
        let at = text.len();
        return format!(in alloc; "{at}: Unexpected");
    }
    String::from_str(alloc, "read")
}

/// Texts of which each prefix has a fault of its tokens or its grammar, or is read.
const TEXTS: [&str; 3] = [
    "features F, G, tru, tr, t; constraint !(F & true) -> G | F <-> F; constraint F; @F @G class A extends B { A() { super(); } }",
    "features F; class A extends B { @F C f; D f; A(@F C f, D f) { super(f, @F g); @F this.f = f; this.f = f; } } class E extends A { E() { super(); } }",
    "features F; class A extends B { A() { super(); } C m(@F D x, D y) { return ((A) (x).f).k(new B(x, @F this), (x)); } @F C m() { return this; } }",
];

#[test]
fn a_slow_reading_agrees_on_each_prefix(rt: HostRuntime) -> Result<(), Fail> {
    let alloc = rt.alloc();
    for text in TEXTS {
        for (at, _) in text.char_indices() {
            let prefix = &text[..at];
            let found = told(alloc, prefix)?;
            let wanted = slowly_told(alloc, prefix)?;
            assert!(rt;
                found.as_str() == wanted.as_str(),
                "of {prefix}: {found}, not {wanted}"
            );
        }
        assert!(rt; slowly_told(alloc, text)?.as_str() == "read");
        assert!(rt; told(alloc, text)?.as_str() == "read");
    }
    Ok(())
}
