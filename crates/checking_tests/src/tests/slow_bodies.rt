//! A slow walk over the nodes of a body.

use super::look_ups::{chain, fields, is_known, is_subtype, nearest_field, nearest_method};
use cfj_model::{Arg, Class, Expr, Method, Name, Param, Project};
use std::alloc::{AllocError, Global};

/// The nodes of a body with their types, those round others first.
#[derive(Drop)]
pub struct Body<'a> {
    pub root: usize,
    pub nodes: Vec<&'a Expr>,
    types: Vec<(usize, Option<&'a str>)>,
}

fn slot_of(node: &Expr) -> usize {
    match node {
        Expr::Var { slot, .. }
        | Expr::Get { slot, .. }
        | Expr::Call { slot, .. }
        | Expr::New { slot, .. }
        | Expr::Cast { slot, .. } => *slot as usize,
    }
}

/// The receiver or the operand of a node.
fn part_of(node: &Expr) -> Option<&Expr> {
    match node {
        Expr::Get { on, .. } | Expr::Call { on, .. } | Expr::Cast { on, .. } => Some(on.get()),
        _ => None,
    }
}

fn args_of(node: &Expr) -> &[Arg] {
    match node {
        Expr::Call { args, .. } | Expr::New { args, .. } => args.slice(),
        _ => &[],
    }
}

impl<'a> Body<'a> {
    pub fn of(
        alloc: Global,
        project: &'a Project,
        class: &'a Class,
        method: &'a Method,
    ) -> Result<Body<'a>, AllocError> {
        let mut nodes: Vec<&'a Expr> = Vec::new(alloc);
        let mut open: Vec<&'a Expr> = Vec::new(alloc);
        open.push(&method.body)?;
        // A body has at most so many nodes.
        for _ in 0..1024 {
            let Some(node) = open.pop() else {
                break;
            };
            nodes.push(node)?;
            if let Some(part) = part_of(node) {
                open.push(part)?;
            }
            for arg in args_of(node) {
                open.push(&arg.expr)?;
            }
        }
        let mut body = Body {
            root: slot_of(&method.body),
            nodes,
            types: Vec::new(alloc),
        };
        for place in (0..body.nodes.len()).rev() {
            if let Some(node) = body.nodes.get(place) {
                let node = *node;
                let found = body.type_of(alloc, project, class, method.params.slice(), node)?;
                body.types.push((slot_of(node), found))?;
            }
        }
        Ok(body)
    }

    pub fn type_at(&self, slot: usize) -> Option<&'a str> {
        match self.types.iter().find(|known| known.0 == slot) {
            Some(known) => known.1,
            None => None,
        }
    }

    /// The types of all arguments, where each has one.
    fn types_of(&self, alloc: Global, args: &[Arg]) -> Result<Option<Vec<&'a str>>, AllocError> {
        let mut types: Vec<&'a str> = Vec::new(alloc);
        for arg in args {
            match self.type_at(slot_of(&arg.expr)) {
                Some(found) => types.push(found)?,
                None => return Ok(None),
            }
        }
        Ok(Some(types))
    }

    /// The types that a call or a `new` wants of its arguments, where all its parts have types and it finds what it names.
    fn wanted(
        &self,
        alloc: Global,
        project: &'a Project,
        node: &'a Expr,
    ) -> Result<Option<Vec<&'a str>>, AllocError> {
        let mut wanted: Vec<&'a str> = Vec::new(alloc);
        match node {
            Expr::Call { on, method, .. } => {
                let Some(class) = self.type_at(slot_of(on.get())) else {
                    return Ok(None);
                };
                let chain = chain(alloc, project, class)?;
                let Some(found) = nearest_method(chain.as_slice(), method.text()) else {
                    return Ok(None);
                };
                for param in found.params.slice() {
                    wanted.push(param.of.text())?;
                }
            }
            Expr::New { class, .. } => {
                if !is_known(project, class.text()) {
                    return Ok(None);
                }
                for field in fields(alloc, project, class.text())?.iter() {
                    wanted.push(field.of.text())?;
                }
            }
            _ => return Ok(None),
        }
        Ok(Some(wanted))
    }

    /// Of a call or a `new`: whether the numbers differ, and the slots of the arguments that misfit.
    fn misfits(
        &self,
        alloc: Global,
        project: &'a Project,
        node: &'a Expr,
    ) -> Result<(bool, Vec<usize>), AllocError> {
        let mut slots = Vec::new(alloc);
        let args = args_of(node);
        let (Some(types), Some(wanted)) = (
            self.types_of(alloc, args)?,
            self.wanted(alloc, project, node)?,
        ) else {
            return Ok((false, slots));
        };
        if types.len() != wanted.len() {
            return Ok((true, slots));
        }
        for (arg, (found, above)) in args.iter().zip(types.iter().zip(wanted.iter())) {
            if !is_subtype(alloc, project, found, above)? {
                slots.push(slot_of(&arg.expr))?;
            }
        }
        Ok((false, slots))
    }

    fn type_of(
        &self,
        alloc: Global,
        project: &'a Project,
        class: &'a Class,
        params: &'a [Param],
        node: &'a Expr,
    ) -> Result<Option<&'a str>, AllocError> {
        if !matches!(node, Expr::Var { .. }) && !self.fits(alloc, project, node)? {
            return Ok(None);
        }
        match node {
            Expr::Var { name, .. } if name.text() == "this" => Ok(Some(class.name.text())),
            Expr::Var { name, .. } => Ok(declared_type(params, name)),
            Expr::Get { on, field, .. } => {
                let Some(owner) = self.type_at(slot_of(on.get())) else {
                    return Ok(None);
                };
                let chain = chain(alloc, project, owner)?;
                Ok(nearest_field(chain.as_slice(), field.text()).map(|found| found.of.text()))
            }
            Expr::Call { on, method, .. } => {
                let Some(owner) = self.type_at(slot_of(on.get())) else {
                    return Ok(None);
                };
                let chain = chain(alloc, project, owner)?;
                Ok(nearest_method(chain.as_slice(), method.text()).map(|found| found.result.text()))
            }
            Expr::New { class, .. } | Expr::Cast { class, .. } => Ok(Some(class.text())),
        }
    }

    /// Whether all parts of a node that is no variable have types, none of its own rules breaks, and no argument misfits.
    fn fits(
        &self,
        alloc: Global,
        project: &'a Project,
        node: &'a Expr,
    ) -> Result<bool, AllocError> {
        let part = match part_of(node) {
            Some(part) => self.type_at(slot_of(part)).is_some(),
            None => true,
        };
        let args = self.types_of(alloc, args_of(node))?.is_some();
        let (_, misfits) = self.misfits(alloc, project, node)?;
        let rules = self.own_rules(alloc, project, node)?;
        Ok(part && args && misfits.is_empty() && !rules.iter().any(|rule| rule.1))
    }

    /// The rules of a node itself.
    fn own_rules(
        &self,
        alloc: Global,
        project: &'a Project,
        node: &'a Expr,
    ) -> Result<Vec<(&'static str, bool)>, AllocError> {
        let mut rules = Vec::new(alloc);
        let args = self.types_of(alloc, args_of(node))?.is_some();
        let part = match part_of(node) {
            Some(part) => self.type_at(slot_of(part)),
            None => None,
        };
        match node {
            Expr::Var { slot, .. } => {
                rules.push(("E1", self.type_at(*slot as usize).is_none()))?;
            }
            Expr::Get { field, .. } => {
                let missing = match part {
                    Some(owner) => {
                        let chain = chain(alloc, project, owner)?;
                        nearest_field(chain.as_slice(), field.text()).is_none()
                    }
                    None => false,
                };
                rules.push(("E2", missing))?;
            }
            Expr::Call { .. } => {
                let wanted = self.wanted(alloc, project, node)?;
                let (differs, _) = self.misfits(alloc, project, node)?;
                rules.push(("E3", part.is_some() && args && wanted.is_none()))?;
                rules.push(("E4", differs))?;
            }
            Expr::New { class, .. } => {
                let (differs, _) = self.misfits(alloc, project, node)?;
                rules.push(("K1", !is_known(project, class.text())))?;
                rules.push(("E6", differs))?;
            }
            Expr::Cast { class, .. } => {
                let known = is_known(project, class.text());
                let unrelated = match part {
                    Some(found) => {
                        known
                            && !is_subtype(alloc, project, found, class.text())?
                            && !is_subtype(alloc, project, class.text(), found)?
                    }
                    None => false,
                };
                rules.push(("K1", !known))?;
                rules.push(("E8", unrelated))?;
            }
        }
        Ok(rules)
    }

    /// The rules at a slot: the node's own, and the one that a call or a `new` round it judges there.
    pub fn rules_at(
        &self,
        alloc: Global,
        project: &'a Project,
        slot: usize,
    ) -> Result<Vec<(&'static str, bool)>, AllocError> {
        let mut rules = match self.nodes.iter().find(|node| slot_of(node) == slot) {
            Some(node) => self.own_rules(alloc, project, node)?,
            None => Vec::new(alloc),
        };
        for node in self.nodes.iter() {
            if args_of(node).iter().any(|arg| slot_of(&arg.expr) == slot) {
                let rule = match node {
                    Expr::Call { .. } => "E5",
                    _ => "E7",
                };
                let (_, misfits) = self.misfits(alloc, project, node)?;
                rules.push((rule, misfits.iter().any(|at| *at == slot)))?;
            }
        }
        Ok(rules)
    }
}

fn declared_type<'a>(params: &'a [Param], name: &Name) -> Option<&'a str> {
    let name = name.text();
    match params.iter().find(|param| param.name.text() == name) {
        Some(param) => Some(param.of.text()),
        None => None,
    }
}
