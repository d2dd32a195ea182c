//! The variant of a project.

ghost use Rattle.std.specs.Prelude.{◌≡◌, [], IfOk, length};
ghost use Rattle.cfj_model.specs.ProductLines.{IsPlain, IsProject};
ghost use Rattle.cfj_model.specs.Projection.{projected};
ghost use Rattle.cfj_model.specs.declared.feature_model.Format.TheVariants.{One};
ghost use Rattle.feature_views.specs.Selected.{present_classes};

use crate::class::class_of;
use cfj_model::{Class, FeatureModel, Format, Items, Project, Selection};
use std::alloc::{AllocError, Global};
use std::sync::Arc;

/// The variant of a selection of the project's features: each node stays where its own marks and those of the optional nodes round it
/// all hold, which is where the features that they want are selected and those that they don't want aren't (Kästner, Apel, Kuhlemann,
/// ICSE 2008). Slots and alts are kept; colours and features are dropped, and so the variant is of format one.
///
/// Fails only where there is no memory for the variant.
pub fn project(
    alloc: Global,
    project: &Project,
    selection: &Selection,
) -> Result<Project, AllocError>
    requires { selection.now.features ≡ length project.now.model.features }
    ensures projection { IfOk result (λ variant. variant ≡ projected selection.now project.now) }
    ensures plain { IfOk result (λ variant. IsPlain variant) }
{
    let classes = classes(alloc, project, selection)?;
    let model = no_features(alloc)?;
    Project::of(model, classes)
}

fn no_features(alloc: Global) -> Result<Arc<FeatureModel>, AllocError>
    ensures { IfOk result (λ model. model.value ≡ record { format = One; features = []; constraints = [] }) }
{
    let features = Items::of(Vec::new(alloc));
    let constraints = Items::of(Vec::new(alloc));
    Ok(Arc::new(
        alloc,
        FeatureModel {
            format: Format::One,
            features,
            constraints,
        },
    )?)
}

fn classes(
    alloc: Global,
    project: &Project,
    selection: &Selection,
) -> Result<Vec<Class>, AllocError>
    ensures present { IfOk result (λ kept. kept.items ≡ present_classes selection.now project.now.classes) }
    ensures kept { IsProject project.now }
{
    let mut kept = Vec::new(alloc);
    'classes: for place in 0..project.class_count() {
        let class = project.class(place);
        if class.colors.is_kept_by(selection) {
            kept.push(class_of(alloc, class, selection)?)?;
        }
    }
    Ok(kept)
}
