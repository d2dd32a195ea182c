//! The law that what is printed reads back.
//!
//! Rests on `cfj_model`, whose `specs/Print.antt` says what is printed and whose `specs/Languages.antt` says what a text of the
//! grammar is and what it stands for. The law needs no code: each of these functions has a contract that states it, and a body
//! that only asks what a project's type keeps.
//!
//! # How it is proved
//!
//! Each formula, expression, class and product line gets a tree with the fewest brackets (`FormulaTrees`, `ExprTrees`,
//! `ClassTrees`), and three things are shown of it. Its value is what it was made from, where that is numbered. Its tokens are
//! those of the printed text: `Lexing.antt` has one relation for a printed piece and its tokens, which says at each end whether a
//! word could go on there, so that pieces are put together by `both` in the order of the print's definition. And its roles are
//! within the limits (`FormulaRoles`, `ExprRoles`, `ClassRoles`), since what a project keeps counts what the roles count.
#![tactic(auto)]

ghost use Rattle.std.specs.Prelude.{IfSome, IsTrue, slice_get};
ghost use Rattle.cfj_model.specs.Languages.{IsTextOf, projects, single_classes};
ghost use Rattle.cfj_model.specs.Numbered.{IsNumbered, is_numbered_class};
ghost use Rattle.cfj_model.specs.Print.{class_text, printed};
ghost use Rattle.cfj_model.specs.ProductLines.{in_format_two};

use cfj_model::{Class, FeatureModel, Project};

/// The print of a numbered project is a text of the grammar that stands for that project.
pub fn print_reads_back(project: &Project)
    requires numbered { IsNumbered project.now }
    ensures { IsTextOf projects (printed project.now) project.now }
{
    let _kept = project.model();
}

/// So is the print of the same project in format two, where its marks mean what they meant: a migrated text loses nothing.
pub fn migrated_reads_back(project: &Project)
    requires numbered { IsNumbered project.now }
    ensures { IsTextOf projects (printed (in_format_two project.now)) (in_format_two project.now) }
{
    let _kept = project.model();
}

/// The text of a numbered class of a project is a text of the grammar of classes that stands for that class.
pub fn class_reads_back(project: &Project, place: usize)
    requires numbered { IfSome (slice_get project.now.classes place) (λ k. IsTrue (is_numbered_class k)) }
    ensures { IfSome (slice_get project.now.classes place) (λ k. IsTextOf (single_classes project.now.model.format project.now.model.features) (class_text project.now.model.features k) k) }
{
    let _kept = project.model();
}

/// The project that a text of the grammar stands for is numbered, so that its print reads back.
pub fn read_is_numbered(project: &Project, text: &str)
    requires read { IsTextOf projects text.now project.now }
    ensures { IsNumbered project.now }
{}

/// And so is the class that a text stands for among declared features.
pub fn read_class_is_numbered(model: &FeatureModel, class: &Class, text: &str)
    requires read { IsTextOf (single_classes model.now.format model.now.features) text.now class.now }
    ensures { IsTrue (is_numbered_class class.now) }
{}
