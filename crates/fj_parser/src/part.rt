//! A part of a project that is read by itself, with what it stands under.

ghost use Rattle.std.specs.Prelude.{◌≡◌, true, nat_le, [], length, IfOk, OnOk};
ghost use Rattle.cfj_words.specs.Names.{is_name};
ghost use Rattle.cfj_model.specs.ProductLines.{are_distinct, most_features};

use crate::goal::Goal;
use cfj_model::{FeatureModel, Format, Name};
use fj_machine::{Machine, Mode, NO_NAME};
use fj_symbols::Features;
use fj_tally::Tally;
use std::alloc::{AllocError, Global};

/// What is to be read by itself: the format and the features that its marks may have, and the class where it is a constructor.
#[derive(Clone, Copy)]
pub struct Part<'a> {
    pub goal: Goal,
    pub format: Format,
    pub features: &'a [Name],
    pub class: &'a str,
    ghost few: { nat_le (length features.now) most_features ≡ true },
    ghost distinct: { are_distinct features.now ≡ true },
    ghost class_fits: { is_name class.now ≡ true },
}

/// The features of a model, as a machine keeps them.
fn features_of<'a>(alloc: Global, names: &'a [Name]) -> Result<Features<'a>, AllocError>
    ensures { IfOk result (λ features. features ≡ names.now) }
{
    let mut features = Features::new(alloc);
    'each: for item in names {
        features.add(alloc, item.text())?;
    }
    Ok(features)
}

impl<'a> Part<'a> {
    ghost use Rattle.cfj_model.specs.Roles.{nothing};
    ghost use Rattle.fj_parser.specs.GoalViews.{met_of, IsPart};
    ghost use Rattle.fj_parser.specs.Goals.{start_for};
    ghost use Rattle.fj_machine.specs.Machine.{behind, unnamed};
    ghost use Rattle.fj_machine.specs.MachineViews.{machine_seen};
    ghost use Rattle.fj_tally.specs.Views.{tally_seen};

    /// What stands without a feature model.
    pub fn alone(goal: Goal) -> Part<'a>
        ensures { IsPart result goal Format.One [] unnamed }
    {
        Part {
            goal,
            format: Format::One,
            features: &[],
            class: NO_NAME,
        }
    }

    /// What stands in a project of this model.
    pub fn under(goal: Goal, model: &'a FeatureModel) -> Part<'a>
        requires few { nat_le (length model.now.features) most_features ≡ true }
        requires distinct { are_distinct model.now.features ≡ true }
        ensures { IsPart result goal model.now.format model.now.features unnamed }
    {
        Part {
            goal,
            format: model.format,
            features: model.features.slice(),
            class: NO_NAME,
        }
    }

    /// The constructor of the class of this name.
    pub fn constructor(model: &'a FeatureModel, class: &'a Name) -> Part<'a>
        requires few { nat_le (length model.now.features) most_features ≡ true }
        requires distinct { are_distinct model.now.features ≡ true }
        ensures { IsPart result Goal.Constructor model.now.format model.now.features class.now }
    {
        Part {
            goal: Goal::Constructor,
            format: model.format,
            features: model.features.slice(),
            class: class.text(),
        }
    }

    /// The machine before the first token; a project and a model bring their own format and features.
    pub fn machine(self, alloc: Global) -> Result<Machine<'a>, AllocError>
        ensures { IfOk result (λ machine. machine_seen machine ≡ start_for self.entry.goal self.entry.format self.entry.features.now self.entry.class.now) }
    {
        match self.goal {
            Goal::Project | Goal::Model => Ok(Machine::new(alloc)),
            Goal::Class => self.begin(alloc, Mode::BetweenClasses, NO_NAME),
            Goal::Constructor => self.begin(alloc, Mode::InMembers, self.class),
            Goal::Field | Goal::Name => self.begin(alloc, Mode::InMembers, NO_NAME),
            Goal::Method | Goal::Member => self.begin(alloc, Mode::InMethods, NO_NAME),
            Goal::Expression => self.begin(alloc, Mode::InExpression, NO_NAME),
        }
    }

    /// The machine before the first token, in a box, so that it drops in one step on each way out of what owns it.
    pub fn boxed(self, alloc: Global) -> Result<Box<Machine<'a>>, AllocError>
        ensures { IfOk result (λ machine. machine_seen machine.value ≡ start_for self.entry.goal self.entry.format self.entry.features.now self.entry.class.now) }
    {
        Ok(Box::new(alloc, self.machine(alloc)?)?)
    }

    fn begin(self, alloc: Global, mode: Mode, name: &'a str) -> Result<Machine<'a>, AllocError>
        requires { is_name name.now ≡ true }
        ensures { IfOk result (λ machine. machine_seen machine ≡ record (behind self.entry.format self.entry.features.now [] []) { mode = mode; name = name.entry.now }) }
    {
        let features = features_of(alloc, self.features)?;
        Ok(Machine::beginning(alloc, mode, self.format, features, name))
    }

    /// Counts what is met before the first token: the format and the features.
    pub fn count_features(self, tally: &mut Tally<'a>) -> Result<(), AllocError>
        requires { tally_seen tally.old ≡ nothing }
        ensures { OnOk result (tally_seen tally.new ≡ met_of self.entry) }
    {
        tally.format = self.format;
        'each: for item in self.features {
            tally.count_feature(item.text())?;
        }
        Ok(())
    }
}
