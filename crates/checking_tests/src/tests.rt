//! Projects that differ from a sound one by a word, judged twice.

mod alone;
mod look_ups;
mod slow;
mod slow_bodies;

use cfj_model::Project;
use fj_parser::parse_project;
use plain_fj::first_break;
use slow::slowly_told;
use std::alloc::{AllocError, Global};
use std::test::Fail;

/// A project in which nothing breaks, with a blank between any two tokens.
const SOUND: &str =
    "class P extends Object { P ( ) { super ( ) ; } Object id ( Object x ) { return x ; } } \
class Q extends P { P f ; Q ( P f ) { super ( ) ; this . f = f ; } P get ( ) { return this . f ; } \
Q with ( P x , Q y ) { return ( Q ) x ; } } \
class R extends Q { Q g ; P h ; R ( P f , Q g , P h ) { super ( f ) ; this . g = g ; this . h = h ; } P get ( ) { return this . with ( this , this . g ) . get ( ) ; } \
Q make ( P x ) { return new R ( x , new Q ( this . f ) , x ) . g ; } }";

/// Words that take the place of one of its words: its classes, some of its members and variables, and a class that isn't there.
const WORDS: [&str; 10] = ["P", "Q", "R", "Object", "M", "x", "f", "g", "get", "with"];

/// The sound project with another word in the place of one of its tokens.
fn changed(alloc: Global, place: usize, word: &str) -> Result<String, AllocError> {
    let mut text = String::new(alloc);
    for (at, own) in SOUND.split(' ').enumerate() {
        text.push_str(if at == place { word } else { own })?;
        text.push_str(" ")?;
    }
    Ok(text)
}

/// The first rule that breaks in a project, with its site; `none` where none does.
fn told(alloc: Global, project: &Project) -> Result<String, AllocError> {
    match first_break(alloc, project)? {
        Some((site, rule)) => format!(in alloc; "{site} {rule:?}"),
        None => String::from_str(alloc, "none"),
    }
}

/// Whether both walks find the same in the project that a text stands for; nothing where it stands for none.
fn agree(alloc: Global, text: &str) -> Result<Option<bool>, AllocError> {
    if text.len() > 4_194_304 {
        return Ok(None);
    }
    let Ok(project) = parse_project(alloc, text.as_bytes()) else {
        return Ok(None);
    };
    let found = told(alloc, &project)?;
    let slowly = slowly_told(alloc, &project)?;
    Ok(Some(found.as_str() == slowly.as_str()))
}

#[test]
fn a_slow_walk_agrees_on_each_changed_word(rt: HostRuntime) -> Result<(), Fail> {
    let alloc = rt.alloc();
    assert!(rt; agree(alloc, SOUND)? == Some(true));
    let mut compared: usize = 0;
    for place in 0..SOUND.split(' ').count() {
        for word in WORDS {
            let text = changed(alloc, place, word)?;
            if let Some(same) = agree(alloc, text.as_str())? {
                assert!(rt; same, "of {text}");
                compared = compared.saturating_add(1);
            }
        }
    }
    assert!(rt; compared > 400, "{compared} were compared");
    Ok(())
}
