//! Cases that are parts of a run: a text that is read by itself.

use case_files::{Answer, CaseFault, Content, Section, words_of};
use cfj_model::{Member, Name, ParseFault, Project, Site, read_site};
use cide_io::MemSink;
use command_words::{Asked, read_words};
use fj_parser::{
    Role, Want, parse_class, parse_constructor, parse_expr, parse_member, parse_model, parse_name,
    parse_project, token_roles,
};
use fj_printer::print_project;
use std::alloc::{AllocError, Global};

/// The longest text that a project may have.
const MOST_BYTES: usize = 4_194_304;

/// The features that the marks of a part may name.
const FEATURES: &[u8] = b"features F, G;";

/// The same in format two.
const SIGNED_FEATURES: &[u8] = b"format2; features F, G;";

/// What is told of the text of a part.
pub fn read_part<'a>(alloc: Global, section: Section<'a>) -> Result<Answer, CaseFault<'a>> {
    let content = Content::of(alloc, section.content, None)?;
    let Ok(text) = str::from_utf8(content.bytes()) else {
        return Err(CaseFault::Form("a part that isn't UTF-8"));
    };
    match told(alloc, section.rest, text)? {
        Some(answer) => Ok(answer),
        None => Err(CaseFault::Form(section.rest)),
    }
}

/// What is told of a text that is read as a part of this kind; nothing where there is no such kind.
fn told(alloc: Global, kind: &str, text: &str) -> Result<Option<Answer>, AllocError> {
    Ok(match kind {
        "words" => Some(words_told(alloc, text)?),
        "path" => Some(path_told(alloc, text)?),
        "project" => Some(project_told(alloc, text)?),
        "roles" => Some(roles_told(alloc, text)?),
        "model" => Some(model_told(alloc, text)?),
        "name" => Some(name_told(alloc, text)?),
        "expression" => Some(expression_told(alloc, text)?),
        other => marked_told(alloc, other, text)?,
    })
}

/// The kind of a part whose nodes may be marked, and the model with the features that marks may name.
fn kind_and_model(kind: &str) -> (&str, &'static [u8]) {
    match kind.strip_prefix("signed ") {
        Some(kind) => (kind, SIGNED_FEATURES),
        None => (kind, FEATURES),
    }
}

/// A text's first fault.
fn refusal(alloc: Global, fault: ParseFault) -> Result<Answer, AllocError> {
    match fault {
        ParseFault::At { at, kind } => {
            let line = format!(in alloc; "refused at {at}: {kind}")?;
            Answer::refusal(alloc, line.as_str())
        }
        ParseFault::NoMemory => Answer::refusal(alloc, "no memory"),
    }
}

/// What the words of a line ask.
fn words_told(alloc: Global, text: &str) -> Result<Answer, AllocError> {
    let Ok(words) = words_of(alloc, text) else {
        return Answer::refusal(alloc, "no words");
    };
    let line = match read_words(alloc, words.as_slice()) {
        Ok(Asked::Check { project, budget }) => format!(in alloc; "check `{project}` {budget}")?,
        Ok(Asked::Migrate { project }) => format!(in alloc; "check `{project}` --migrate")?,
        Ok(Asked::Export { project, names }) => format!(in alloc; "export `{project}` `{names}`")?,
        Err(_) => return Answer::refusal(alloc, "no command"),
    };
    Answer::line(alloc, line.as_str())
}

/// The kind of a site.
fn kind_of(site: &Site) -> &'static str {
    match site {
        Site::Model => "model",
        Site::Class(_) => "class",
        Site::Field(_, _, _) => "field",
        Site::Ctor(_) => "constructor",
        Site::CtorParam(_, _) => "constructor parameter",
        Site::SuperArg(_, _) => "super argument",
        Site::Assign(_, _) => "assignment",
        Site::Method(_, _, _) => "method",
        Site::Param(_, _, _, _) => "parameter",
        Site::Node(_, _, _, _) => "node",
    }
}

/// The kind of the site that a path names, and the path of a copy of that site.
fn path_told(alloc: Global, text: &str) -> Result<Answer, AllocError> {
    let Some(site) = read_site(alloc, text)? else {
        return Answer::refusal(alloc, "no path");
    };
    let copied = site.copy(alloc)?;
    let kind = kind_of(&site);
    let line = format!(in alloc; "{kind} {copied}")?;
    Answer::line(alloc, line.as_str())
}

/// The print of the project that a text stands for.
fn printed(alloc: Global, text: &[u8]) -> Result<Vec<u8>, ParseFault> {
    if text.len() > MOST_BYTES {
        return Err(ParseFault::NoMemory);
    }
    let project = parse_project(alloc, text)?;
    let mut sink = MemSink::new(Vec::new(alloc));
    let whole = print_project(&project, &mut sink);
    let held = sink.into_held();
    match whole {
        Ok(()) => Ok(held),
        Err(_) => Err(ParseFault::NoMemory),
    }
}

/// Whether a text is its own print.
fn is_own_print(alloc: Global, text: &[u8]) -> bool {
    match printed(alloc, text) {
        Ok(print) => print.as_slice() == text,
        Err(_) => false,
    }
}

/// A print, which must be its own print.
fn print_told(alloc: Global, out: Vec<u8>) -> Result<Answer, AllocError> {
    if !is_own_print(alloc, out.as_slice()) {
        return Answer::refusal(alloc, "the print has another print");
    }
    Ok(Answer {
        status: 0,
        out,
        err: Vec::new(alloc),
    })
}

/// What is told of a text that is read as a project: its print.
fn project_told(alloc: Global, text: &str) -> Result<Answer, AllocError> {
    match printed(alloc, text.as_bytes()) {
        Ok(out) => print_told(alloc, out),
        Err(fault) => refusal(alloc, fault),
    }
}

/// What a token in this role is called.
fn role_word(role: Role<'_>) -> &'static str {
    match role {
        Role::FormatLine => "format",
        Role::FeatureName(_) => "feature",
        Role::MarkName(_) => "mark",
        Role::FormulaName(_) => "feature in a formula",
        Role::KnownName(_) => "feature elsewhere",
        Role::ClassName(_) => "class",
        Role::FieldName(_) => "field",
        Role::MethodName(_) => "method",
        Role::ParamName(_) => "parameter of a constructor",
        Role::MethodParamName(_) => "parameter",
        Role::SentName(_) => "sent",
        Role::AssignedName(_) => "assigned",
        Role::VarName(_) => "variable",
        Role::UsedName(_) => "used",
        Role::Sign => "sign",
        Role::FormulaNode => "node of a formula",
        Role::FormulaOpens(_) => "open node of a formula",
        Role::Opens(_) => "bracket",
        Role::Casts(_) => "cast",
        Role::Node => "node",
        Role::Other => "other",
    }
}

/// The place of each token of a project, and what it is there.
fn roles_told(alloc: Global, text: &str) -> Result<Answer, AllocError> {
    let list = match token_roles(alloc, text) {
        Ok(list) => list,
        Err(fault) => return refusal(alloc, fault),
    };
    let mut out = Vec::new(alloc);
    for token in list.as_slice() {
        let at = token.at;
        let word = role_word(token.role);
        let line = format!(in alloc; "{at} {word}\n")?;
        out.extend_from_slice(line.as_bytes())?;
    }
    Ok(Answer {
        status: 0,
        out,
        err: Vec::new(alloc),
    })
}

/// The number of a model's features.
fn model_told(alloc: Global, text: &str) -> Result<Answer, AllocError> {
    match parse_model(alloc, text) {
        Ok(model) => {
            let count = model.features.slice().len();
            let line = format!(in alloc; "{count}")?;
            Answer::line(alloc, line.as_str())
        }
        Err(fault) => refusal(alloc, fault),
    }
}

/// A name.
fn name_told(alloc: Global, text: &str) -> Result<Answer, AllocError> {
    match parse_name(alloc, text) {
        Ok(name) => Answer::line(alloc, name.text()),
        Err(fault) => refusal(alloc, fault),
    }
}

/// That an expression is read.
fn expression_told(alloc: Global, text: &str) -> Result<Answer, AllocError> {
    match parse_expr(alloc, text) {
        Ok(_) => Answer::line(alloc, "read"),
        Err(fault) => refusal(alloc, fault),
    }
}

/// What is told of a text whose marks name the features `F` and `G`.
fn marked_told(alloc: Global, kind: &str, text: &str) -> Result<Option<Answer>, AllocError> {
    let (kind, model) = kind_and_model(kind);
    if model.len() > MOST_BYTES {
        return Ok(None);
    }
    let Ok(project) = parse_project(alloc, model) else {
        return Ok(None);
    };
    Ok(match kind {
        "class" => Some(class_told(alloc, text, &project)?),
        "constructor" => Some(constructor_told(alloc, text, &project, "A")?),
        "constructor of this" => Some(constructor_told(alloc, text, &project, "this")?),
        "member" => Some(member_told(alloc, text, &project, Want::Any)?),
        "field" => Some(member_told(alloc, text, &project, Want::Field)?),
        "method" => Some(member_told(alloc, text, &project, Want::Method)?),
        _ => None,
    })
}

/// A class's name.
fn class_told(alloc: Global, text: &str, project: &Project) -> Result<Answer, AllocError> {
    match parse_class(alloc, text, project.model()) {
        Ok(class) => Answer::line(alloc, class.name.text()),
        Err(fault) => refusal(alloc, fault),
    }
}

/// The number of the parameters of a constructor of the class of this name.
fn constructor_told(
    alloc: Global,
    text: &str,
    project: &Project,
    class: &str,
) -> Result<Answer, AllocError> {
    let Some(class) = Name::of(alloc, class)? else {
        return Answer::refusal(alloc, "no name");
    };
    match parse_constructor(alloc, text, project.model(), &class) {
        Ok(ctor) => {
            let count = ctor.params.slice().len();
            let line = format!(in alloc; "{count}")?;
            Answer::line(alloc, line.as_str())
        }
        Err(fault) => refusal(alloc, fault),
    }
}

/// A member's kind and name.
fn member_told(
    alloc: Global,
    text: &str,
    project: &Project,
    want: Want,
) -> Result<Answer, AllocError> {
    match parse_member(alloc, text, project.model(), want) {
        Ok(member) => {
            let line = match &member {
                Member::Field(field) => format!(in alloc; "field {}", field.name.text())?,
                Member::Method(method) => format!(in alloc; "method {}", method.name.text())?,
            };
            Answer::line(alloc, line.as_str())
        }
        Err(fault) => refusal(alloc, fault),
    }
}
