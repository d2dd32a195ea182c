//! The rules and the limits that a token can break.

ghost use Rattle.std.specs.Prelude.{◌≡◌, ◌∷◌, [], Some, true, not, is_some, IfOk};
ghost use Rattle.cfj_words.specs.Names.{is_among, is_identifier, is_name};
ghost use Rattle.cfj_model.specs.Coloring.{is_two};
ghost use Rattle.cfj_model.specs.Roles as spec;
ghost use Rattle.fj_tally.specs.Views.{broken_in_list, tally_seen};
ghost use Rattle.fj_symbols.specs.Views.{is_identifier_role, role_seen};

use crate::tally::Tally;
use cfj_model::{
    FaultKind, Format, LimitKind, MOST_CLASSES, MOST_FEATURES, MOST_FIELDS, MOST_FORMULA_NODES,
    MOST_IN_CTOR, MOST_METHODS, MOST_NAME_BYTES, MOST_NEST, MOST_NODES, MOST_PARAMS, MOST_SIZE,
};
use fj_symbols::{Role, name_of};
use std::alloc::{AllocError, Global};

pub(crate) fn is_long(name: &str) -> bool
    ensures { result ≡ spec.is_long name.now }
{
    name.len() > MOST_NAME_BYTES
}

fn twice(alloc: Global, name: &str) -> Result<FaultKind, AllocError>
    requires { is_name name.now ≡ true }
    ensures { IfOk result (λ kind. kind ≡ FaultKind.Twice name.now) }
{
    Ok(FaultKind::Twice(name_of(alloc, name)?))
}

/// So many constructs open at once are too many.
pub(crate) fn is_deep(depth: usize) -> bool
    ensures { result ≡ (spec.past_nest depth).0 }
{
    depth > MOST_NEST
}

impl<'a> Tally<'a> {
    /// The fault of a token in this role that breaks a rule or a limit.
    ///
    /// # Errors
    ///
    /// There is no memory for its name.
    pub fn fault(&self, alloc: Global, role: Role<'a>) -> Result<FaultKind, AllocError>
        requires named { is_identifier_role (role_seen role) ≡ true }
        requires broken { is_some (spec.broken_by (tally_seen self.now) (role_seen role)) ≡ true }
        ensures { IfOk result (λ kind. spec.broken_by (tally_seen self.now) (role_seen role.entry) ≡ Some kind) }
    {
        match self.broken_by(alloc, role)? {
            Some(kind) => Ok(kind),
            None => unreachable!(),
        }
    }

    /// The rule or limit that a token in this role breaks.
    fn broken_by(&self, alloc: Global, role: Role<'a>) -> Result<Option<FaultKind>, AllocError>
        requires { is_identifier_role (role_seen role) ≡ true }
        ensures { IfOk result (λ fault. fault ≡ spec.broken_by (tally_seen self.now) (role_seen role.entry)) }
    {
        match role {
            Role::FormatLine => Ok(None),
            Role::FeatureName(name) => self.broken_by_feature(alloc, name),
            Role::MarkName(name) => self.broken_by_mark(alloc, name),
            Role::FormulaName(name) => self.broken_by_formula_name(alloc, name),
            Role::KnownName(name) => self.broken_by_known(alloc, name),
            Role::ClassName(name) => self.broken_by_class(alloc, name),
            Role::FieldName(name) => Ok(self.broken_by_field(name)),
            Role::MethodName(name) => Ok(self.broken_by_method(name)),
            Role::ParamName(name) => Ok(self.broken_in_list(name, self.params)),
            Role::MethodParamName(name) => self.broken_by_method_param(alloc, name),
            Role::SentName(name) => Ok(self.broken_in_list(name, self.sends)),
            Role::AssignedName(name) => Ok(self.broken_in_list(name, self.assigns)),
            Role::VarName(name) => Ok(self.broken_by_var(name)),
            Role::UsedName(name) => Ok(self.broken_by_used(name)),
            Role::Sign => Ok(self.broken_by_sign()),
            Role::FormulaNode => Ok(self.broken_by_formula()),
            Role::FormulaOpens(depth) => Ok(self.broken_by_formula_opens(depth)),
            Role::Opens(depth) => Ok(self.broken_by_opens(depth)),
            Role::Casts(depth) => Ok(self.broken_by_cast(depth)),
            Role::Node => Ok(self.broken_by_node()),
            Role::Other => Ok(None),
        }
    }

    pub(crate) fn has_full_size(&self) -> bool
        ensures { result ≡ (spec.past_size (tally_seen self.now)).0 }
    {
        self.size >= MOST_SIZE
    }

    fn broken_by_size(&self) -> Option<FaultKind>
        ensures { result ≡ spec.first_of (spec.past_size (tally_seen self.now) ∷ []) }
    {
        if self.has_full_size() {
            return Some(FaultKind::Limit(LimitKind::Size));
        }
        None
    }

    fn broken_by_feature(&self, alloc: Global, name: &str) -> Result<Option<FaultKind>, AllocError>
        requires { is_identifier name.now ≡ true }
        ensures { IfOk result (λ fault. fault ≡ spec.broken_by (tally_seen self.now) (spec.feature_name name.now)) }
    {
        if is_long(name) {
            return Ok(Some(FaultKind::Limit(LimitKind::Name)));
        }
        if self.features.has(name) {
            return Ok(Some(twice(alloc, name)?));
        }
        if self.features.len() >= MOST_FEATURES {
            return Ok(Some(FaultKind::Limit(LimitKind::Features)));
        }
        Ok(None)
    }

    pub(crate) fn is_unknown(&self, name: &str) -> bool
        ensures { result ≡ not (is_among self.now.features name.now) }
    {
        !self.features.has(name)
    }

    fn broken_by_mark(&self, alloc: Global, name: &str) -> Result<Option<FaultKind>, AllocError>
        requires { is_identifier name.now ≡ true }
        ensures { IfOk result (λ fault. fault ≡ spec.broken_by (tally_seen self.now) (spec.mark_name name.now)) }
    {
        if is_long(name) {
            return Ok(Some(FaultKind::Limit(LimitKind::Name)));
        }
        if self.is_unknown(name) {
            return Ok(Some(FaultKind::NoFeature(name_of(alloc, name)?)));
        }
        if self.marks.has(name) {
            return Ok(Some(twice(alloc, name)?));
        }
        Ok(None)
    }

    fn broken_by_formula_name(
        &self,
        alloc: Global,
        name: &str,
    ) -> Result<Option<FaultKind>, AllocError>
        requires { is_identifier name.now ≡ true }
        ensures { IfOk result (λ fault. fault ≡ spec.broken_by (tally_seen self.now) (spec.formula_name name.now)) }
    {
        if is_long(name) {
            return Ok(Some(FaultKind::Limit(LimitKind::Name)));
        }
        if self.is_unknown(name) {
            return Ok(Some(FaultKind::NoFeature(name_of(alloc, name)?)));
        }
        Ok(self.broken_by_formula())
    }

    fn broken_by_known(&self, alloc: Global, name: &str) -> Result<Option<FaultKind>, AllocError>
        requires { is_identifier name.now ≡ true }
        ensures { IfOk result (λ fault. fault ≡ spec.broken_by (tally_seen self.now) (spec.known_name name.now)) }
    {
        if is_long(name) {
            return Ok(Some(FaultKind::Limit(LimitKind::Name)));
        }
        if self.is_unknown(name) {
            return Ok(Some(FaultKind::NoFeature(name_of(alloc, name)?)));
        }
        Ok(None)
    }

    /// Marks may have a `!`.
    pub(crate) fn has_signs(&self) -> bool
        ensures { result ≡ is_two self.now.format }
    {
        match self.format {
            Format::One => false,
            Format::Two => true,
        }
    }

    fn broken_by_sign(&self) -> Option<FaultKind>
        ensures { result ≡ spec.broken_by (tally_seen self.now) spec.sign }
    {
        if self.has_signs() {
            return None;
        }
        Some(FaultKind::Unexpected)
    }

    fn broken_by_formula(&self) -> Option<FaultKind>
        ensures { result ≡ spec.broken_by (tally_seen self.now) spec.formula_node }
    {
        if self.formula_nodes >= MOST_FORMULA_NODES {
            return Some(FaultKind::Limit(LimitKind::Formula));
        }
        None
    }

    fn broken_by_formula_opens(&self, depth: usize) -> Option<FaultKind>
        ensures { result ≡ spec.broken_by (tally_seen self.now) (spec.formula_opens depth) }
    {
        if self.formula_nodes >= MOST_FORMULA_NODES {
            return Some(FaultKind::Limit(LimitKind::Formula));
        }
        if is_deep(depth) {
            return Some(FaultKind::Limit(LimitKind::Nest));
        }
        None
    }

    fn broken_by_class(&self, alloc: Global, name: &str) -> Result<Option<FaultKind>, AllocError>
        requires { is_identifier name.now ≡ true }
        ensures { IfOk result (λ fault. fault ≡ spec.broken_by (tally_seen self.now) (spec.class_name name.now)) }
    {
        if name == "Object" {
            return Ok(Some(FaultKind::Reserved));
        }
        if is_long(name) {
            return Ok(Some(FaultKind::Limit(LimitKind::Name)));
        }
        if self.classes.has(name) {
            return Ok(Some(twice(alloc, name)?));
        }
        if self.classes.len() >= MOST_CLASSES {
            return Ok(Some(FaultKind::Limit(LimitKind::Classes)));
        }
        Ok(self.broken_by_size())
    }

    fn broken_by_field(&self, name: &str) -> Option<FaultKind>
        ensures { result ≡ spec.broken_by (tally_seen self.now) (spec.field_name name.now) }
    {
        if is_long(name) {
            return Some(FaultKind::Limit(LimitKind::Name));
        }
        if self.fields >= MOST_FIELDS {
            return Some(FaultKind::Limit(LimitKind::Fields));
        }
        self.broken_by_size()
    }

    fn broken_by_method(&self, name: &str) -> Option<FaultKind>
        ensures { result ≡ spec.broken_by (tally_seen self.now) (spec.method_name name.now) }
    {
        if is_long(name) {
            return Some(FaultKind::Limit(LimitKind::Name));
        }
        if self.methods >= MOST_METHODS {
            return Some(FaultKind::Limit(LimitKind::Methods));
        }
        self.broken_by_size()
    }

    fn broken_by_method_param(
        &self,
        alloc: Global,
        name: &str,
    ) -> Result<Option<FaultKind>, AllocError>
        requires { is_identifier name.now ≡ true }
        ensures { IfOk result (λ fault. fault ≡ spec.broken_by (tally_seen self.now) (spec.method_param_name name.now)) }
    {
        if is_long(name) {
            return Ok(Some(FaultKind::Limit(LimitKind::Name)));
        }
        if self.param_names.has(name) {
            return Ok(Some(twice(alloc, name)?));
        }
        if self.param_names.len() >= MOST_PARAMS {
            return Ok(Some(FaultKind::Limit(LimitKind::Params)));
        }
        Ok(self.broken_by_size())
    }

    fn broken_in_list(&self, name: &str, before: usize) -> Option<FaultKind>
        ensures { result ≡ broken_in_list (tally_seen self.now) before name.now }
    {
        if is_long(name) {
            return Some(FaultKind::Limit(LimitKind::Name));
        }
        if before >= MOST_IN_CTOR {
            return Some(FaultKind::Limit(LimitKind::Ctor));
        }
        self.broken_by_size()
    }

    fn broken_by_var(&self, name: &str) -> Option<FaultKind>
        ensures { result ≡ spec.broken_by (tally_seen self.now) (spec.var_name name.now) }
    {
        if is_long(name) {
            return Some(FaultKind::Limit(LimitKind::Name));
        }
        self.broken_by_node()
    }

    fn broken_by_used(&self, name: &str) -> Option<FaultKind>
        ensures { result ≡ spec.broken_by (tally_seen self.now) (spec.used_name name.now) }
    {
        if is_long(name) {
            return Some(FaultKind::Limit(LimitKind::Name));
        }
        None
    }

    fn broken_by_opens(&self, depth: usize) -> Option<FaultKind>
        ensures { result ≡ spec.broken_by (tally_seen self.now) (spec.opens depth) }
    {
        if is_deep(depth) {
            return Some(FaultKind::Limit(LimitKind::Nest));
        }
        None
    }

    fn broken_by_cast(&self, depth: usize) -> Option<FaultKind>
        ensures { result ≡ spec.broken_by (tally_seen self.now) (spec.casts depth) }
    {
        if is_deep(depth) {
            return Some(FaultKind::Limit(LimitKind::Nest));
        }
        self.broken_by_node()
    }

    fn broken_by_node(&self) -> Option<FaultKind>
        ensures { result ≡ spec.broken_by (tally_seen self.now) spec.node }
    {
        if self.nodes >= MOST_NODES {
            return Some(FaultKind::Limit(LimitKind::Nodes));
        }
        self.broken_by_size()
    }
}
