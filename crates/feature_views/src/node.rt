//! Nodes in lists, of which a variant keeps those that are present.

ghost use Rattle.std.specs.Prelude.{◌≡◌, IfOk};
ghost use Rattle.cfj_logic.specs.Selections.{Chosen};
ghost use Rattle.cfj_logic.specs.Sides.{Sides};
ghost use Rattle.feature_views.specs.Selected.{selected_nodes};

use crate::expr::selected_expr;
use cfj_model::{Colors, Field, Items, Method, Param, Selection, Sent};
use std::alloc::{AllocError, Global};

/// A part of a class that may be marked by itself.
pub trait Node {
    /// Its colours.
    ghost colors_of: { Self → Sides };

    /// The node with its selected parts, without its colours.
    ghost kept_of: { Chosen → Self → Self };

    /// What it is marked with.
    fn colors(&self) -> Colors
        ensures { result ≡ colors_of self.now };

    /// A copy of its selected parts, without colours.
    fn kept(&self, alloc: Global, selection: &Selection) -> Result<Self, AllocError>
        ensures { IfOk result (λ kept. kept ≡ kept_of selection.now self.now) };
}

/// The nodes whose own marks all hold, in order, with their selected parts and without their colours.
pub fn selected<N: Node + Drop>(
    alloc: Global,
    nodes: &Items<N>,
    selection: &Selection,
) -> Result<Items<N>, AllocError>
    ensures { IfOk result (λ kept. kept ≡ selected_nodes N.colors_of (N.kept_of selection.now) selection.now nodes.now) }
{
    let nodes = nodes.slice();
    let mut kept = Vec::with_capacity(alloc, nodes.len())?;
    'nodes: for node in nodes {
        if node.colors().is_kept_by(selection) {
            kept.push(node.kept(alloc, selection)?)?;
        }
    }
    Ok(Items::of(kept))
}

impl Node for Field {
    ghost use Rattle.cfj_model.specs.Projection.{bare_field};

    ghost colors_of = { λ field. field.colors };

    ghost kept_of = { λ _. bare_field };

    fn colors(&self) -> Colors {
        self.colors
    }

    fn kept(&self, alloc: Global, _selection: &Selection) -> Result<Field, AllocError> {
        Ok(Field {
            alt: self.alt,
            colors: Colors::empty(),
            of: self.of.copy(alloc)?,
            name: self.name.copy(alloc)?,
        })
    }
}

impl Node for Param {
    ghost use Rattle.cfj_model.specs.Projection.{bare_param};

    ghost colors_of = { λ param. param.colors };

    ghost kept_of = { λ _. bare_param };

    fn colors(&self) -> Colors {
        self.colors
    }

    fn kept(&self, alloc: Global, _selection: &Selection) -> Result<Param, AllocError> {
        Ok(Param {
            slot: self.slot,
            colors: Colors::empty(),
            of: self.of.copy(alloc)?,
            name: self.name.copy(alloc)?,
        })
    }
}

impl Node for Sent {
    ghost use Rattle.cfj_model.specs.Projection.{bare_sent};

    ghost colors_of = { λ sent. sent.colors };

    ghost kept_of = { λ _. bare_sent };

    fn colors(&self) -> Colors {
        self.colors
    }

    fn kept(&self, alloc: Global, _selection: &Selection) -> Result<Sent, AllocError> {
        Ok(Sent {
            slot: self.slot,
            colors: Colors::empty(),
            name: self.name.copy(alloc)?,
        })
    }
}

impl Node for Method {
    ghost use Rattle.feature_views.specs.Selected.{selected_method};

    ghost colors_of = { λ method. method.colors };

    ghost kept_of = { selected_method };

    fn colors(&self) -> Colors {
        self.colors
    }

    fn kept(&self, alloc: Global, selection: &Selection) -> Result<Method, AllocError> {
        Ok(Method {
            alt: self.alt,
            colors: Colors::empty(),
            result: self.result.copy(alloc)?,
            name: self.name.copy(alloc)?,
            params: selected(alloc, &self.params, selection)?,
            body: selected_expr(alloc, &self.body, selection)?,
        })
    }
}
