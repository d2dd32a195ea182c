//! The variant of a class.

ghost use Rattle.std.specs.Prelude.{◌≡◌, true, IfOk};
ghost use Rattle.cfj_model.specs.Projection.{is_present, projected_ctor, projected_class};

use crate::node::selected;
use cfj_model::{Class, Colors, Constructor, Selection};
use std::alloc::{AllocError, Global};

/// A present class with its present nodes. The class's marks hold, so each node is tested for its own alone.
pub fn class_of(alloc: Global, class: &Class, selection: &Selection) -> Result<Class, AllocError>
    requires { is_present selection.now class.now.colors ≡ true }
    ensures { IfOk result (λ kept. kept ≡ projected_class selection.now class.now) }
{
    Ok(Class {
        name: class.name.copy(alloc)?,
        colors: Colors::empty(),
        parent: class.parent.copy(alloc)?,
        fields: selected(alloc, &class.fields, selection)?,
        ctor: ctor_of(alloc, class, selection)?,
        methods: selected(alloc, &class.methods, selection)?,
    })
}

fn ctor_of(alloc: Global, class: &Class, selection: &Selection) -> Result<Constructor, AllocError>
    requires { is_present selection.now class.now.colors ≡ true }
    ensures { IfOk result (λ kept. kept ≡ projected_ctor selection.now class.now.colors class.now.ctor) }
{
    let ctor = &class.ctor;
    Ok(Constructor {
        params: selected(alloc, &ctor.params, selection)?,
        sends: selected(alloc, &ctor.sends, selection)?,
        assigns: selected(alloc, &ctor.assigns, selection)?,
    })
}
