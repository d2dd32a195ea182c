//! Prints whose sink fails, and variants that are printed from their project.

ghost use Rattle.std.specs.Prelude.{◌≡◌, length};

use cfj_model::{Project, Selection};
use cide_io::MemSink;
use feature_views::project as variant_of;
use fj_parser::parse_project;
use fj_printer::{print_plain, print_project, print_variant};
use std::alloc::{AllocError, Global};
use std::test::Fail;

/// What a print left in its sink, of which the calls with these numbers fail, and whether it was printed to its end; nothing where
/// the text isn't read.
fn printed(
    alloc: Global,
    text: &str,
    fails: &[u64],
) -> Result<Option<(Vec<u8>, bool)>, AllocError> {
    if text.len() > 4_194_304 {
        return Ok(None);
    }
    let Ok(project) = parse_project(alloc, text.as_bytes()) else {
        return Ok(None);
    };
    let mut sink = MemSink::new(Vec::from_slice(alloc, fails)?);
    let whole = print_project(&project, &mut sink).is_ok();
    Ok(Some((sink.into_held(), whole)))
}

/// So many classes, each with a method, as they are printed.
fn many_classes(alloc: Global, count: usize) -> Result<String, AllocError> {
    let mut text = String::new(alloc);
    for i in 0..count {
        let class = format!(in alloc;
            "class C{i} extends Object {{\n  C{i}() {{ super(); }}\n  Object m(Object x) {{ return x.m(this); }}\n}}\n"
        )?;
        text.push_str(class.as_str())?;
    }
    Ok(text)
}

#[test]
fn a_print_stops_where_its_sink_fails(rt: HostRuntime) -> Result<(), Fail> {
    let alloc = rt.alloc();
    let text = many_classes(alloc, 600)?;
    let text = text.as_str();
    let mut failed: u64 = 0;
    // The print goes out in pieces; each put in turn fails, up to the last.
    for call in 0..100 {
        let Some((held, whole)) = printed(alloc, text, &[call])? else {
            assert!(rt; false, "the text isn't read");
            return Ok(());
        };
        if whole {
            assert!(rt; held.as_slice() == text.as_bytes());
            break;
        }
        failed = failed.saturating_add(1);
        assert!(rt; held.len() < text.len());
        assert!(rt;
            text.as_bytes().starts_with(held.as_slice()),
            "at put {call}"
        );
    }
    assert!(rt; failed > 2 && failed < 100);
    Ok(())
}

/// Whether the variant of a selection is printed from its project as it is from its own copy.
fn is_printed_as_copied(
    alloc: Global,
    project: &Project,
    selection: &Selection,
) -> Result<bool, AllocError>
    requires { selection.now.features ≡ length project.now.model.features }
{
    let variant = variant_of(alloc, project, selection)?;
    let mut from_project = MemSink::new(Vec::new(alloc));
    let mut from_copy = MemSink::new(Vec::new(alloc));
    let whole = print_variant(project, selection, &mut from_project).is_ok();
    let copied = print_plain(&variant, &mut from_copy).is_ok();
    let text = from_project.into_held();
    let wanted = from_copy.into_held();
    Ok(whole && copied && !text.is_empty() && text.as_slice() == wanted.as_slice())
}

/// A project in which each kind of node that may be marked is.
const CROWDED: &str =
    "features F,G;constraint F|G;constraint!(F&G)->true;@G@F class A extends B{@F C f;D g;A(@G@F C f,D g)\
{super(@F f,g);@G this.f=f;this.g=g;}@F C m(@G D x,@F D y){return x.m(@G@F y,this.f);}D n(){return new D();}}class B extends A{B(){super();}}";

/// A project whose first, last and only items of lists are present under some selections of its features.
const COMBED: &str =
    "features F,G;@F class A extends B{A(){super();}}class B extends A{@F C f;C g;@G C h;B(@F C f,C g,@G C h)\
{super(@F f,g,@G h);@F this.f=f;this.g=g;@G this.h=h;}@F C m(@G D x){return x;}\
D n(@F C x,@G C y){return new D(@F x,@G y,this.n(@G x.f,@F y),((C)x).m(@F@G y,x));}}";

#[test]
fn a_variant_is_printed_without_its_copy(rt: HostRuntime) -> Result<(), Fail> {
    let alloc = rt.alloc();
    for text in [CROWDED, COMBED] {
        let Ok(project) = parse_project(alloc, text.as_bytes()) else {
            assert!(rt; false, "the text isn't read");
            return Ok(());
        };
        if project.model().features.slice().len() != 2 {
            assert!(rt; false, "the features aren't read");
            return Ok(());
        }
        let none = Selection::none(2);
        let first = none.with(0);
        for selection in [none, first, none.with(1), first.with(1)] {
            assert!(rt; is_printed_as_copied(alloc, &project, &selection)?);
        }
    }
    Ok(())
}
