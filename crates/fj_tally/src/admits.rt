//! What a token adds to what was met.

ghost use Rattle.std.specs.Prelude.{◌≡◌, ◌<◌, None, IfOk, OnOk};
ghost use Rattle.cfj_model.specs.Roles as spec;
ghost use Rattle.fj_tally.specs.Views.{tally_seen, with_declaration, Admits};
ghost use Rattle.fj_symbols.specs.Views.{role_seen};

use crate::rules::{is_deep, is_long};
use crate::tally::Tally;
use cfj_model::{
    Format, MOST_CLASSES, MOST_FEATURES, MOST_FIELDS, MOST_FORMULA_NODES, MOST_IN_CTOR,
    MOST_METHODS, MOST_NODES, MOST_PARAMS,
};
use fj_symbols::Role;
use std::alloc::AllocError;

/// What a token adds to what was met, where it breaks nothing.
///
/// A name is looked up and added at once, behind all other tests, so that nothing changes where one fails.
impl<'a> Tally<'a> {
    /// Counts one more token in its role; `false` where it breaks a rule or a limit.
    ///
    /// # Errors
    ///
    /// There is no memory for its name.
    #[inline(always)]
    pub fn admit(&mut self, role: Role<'a>) -> Result<bool, AllocError>
        ensures { IfOk result (Admits (tally_seen self.old) (role_seen role.entry) (tally_seen self.new)) }
    {
        match role {
            // Most tokens are these.
            Role::Other => Ok(true),
            _ => self.admit_counted(role),
        }
    }

    fn admit_counted(&mut self, role: Role<'a>) -> Result<bool, AllocError>
        ensures { IfOk result (Admits (tally_seen self.old) (role_seen role.entry) (tally_seen self.new)) }
    {
        match role {
            Role::FormatLine => Ok(self.admit_format()),
            Role::FeatureName(name) => self.admit_feature(name),
            Role::MarkName(name) => self.admit_mark(name),
            Role::FormulaName(name) => Ok(self.admit_formula_name(name)),
            Role::KnownName(name) => Ok(self.admit_known(name)),
            Role::ClassName(name) => self.admit_class(name),
            Role::FieldName(name) => Ok(self.admit_field(name)),
            Role::MethodName(name) => Ok(self.admit_method(name)),
            Role::ParamName(name) => Ok(self.admit_param(name)),
            Role::MethodParamName(name) => self.admit_method_param(name),
            Role::SentName(name) => Ok(self.admit_sent(name)),
            Role::AssignedName(name) => Ok(self.admit_assigned(name)),
            Role::VarName(name) => Ok(self.admit_var(name)),
            Role::UsedName(name) => Ok(self.admit_used(name)),
            Role::Sign => Ok(self.admit_sign()),
            Role::FormulaNode => Ok(self.admit_formula_node()),
            Role::FormulaOpens(depth) => Ok(self.admit_formula_opens(depth)),
            Role::Opens(depth) => Ok(self.admit_opens(depth)),
            Role::Casts(depth) => Ok(self.admit_cast(depth)),
            Role::Node => Ok(self.admit_node()),
            Role::Other => Ok(true),
        }
    }

    fn admit_format(&mut self) -> bool
        ensures { Admits (tally_seen self.old) spec.format_line (tally_seen self.new) result }
    {
        self.format = Format::Two;
        true
    }

    /// Counts one more feature, which breaks nothing.
    ///
    /// # Errors
    ///
    /// There is no memory for it.
    pub fn count_feature(&mut self, name: &'a str) -> Result<(), AllocError>
        requires { spec.broken_by (tally_seen self.old) (spec.feature_name name.now) ≡ None }
        ensures { OnOk result (tally_seen self.new ≡ spec.counted (tally_seen self.old) (spec.feature_name name.now)) }
    {
        self.features.add(name)?;
        Ok(())
    }

    fn admit_feature(&mut self, name: &'a str) -> Result<bool, AllocError>
        ensures { IfOk result (Admits (tally_seen self.old) (spec.feature_name name.now) (tally_seen self.new)) }
    {
        if is_long(name) || self.features.len() >= MOST_FEATURES || !self.features.add(name)? {
            return Ok(false);
        }
        Ok(true)
    }

    fn admit_mark(&mut self, name: &'a str) -> Result<bool, AllocError>
        ensures { IfOk result (Admits (tally_seen self.old) (spec.mark_name name.now) (tally_seen self.new)) }
    {
        if is_long(name) || self.is_unknown(name) || !self.marks.add(name)? {
            return Ok(false);
        }
        Ok(true)
    }

    fn admit_formula_name(&mut self, name: &str) -> bool
        ensures { Admits (tally_seen self.old) (spec.formula_name name.now) (tally_seen self.new) result }
    {
        if is_long(name) || self.is_unknown(name) || self.formula_nodes >= MOST_FORMULA_NODES {
            return false;
        }
        self.formula_nodes += 1;
        true
    }

    fn admit_known(&mut self, name: &str) -> bool
        ensures { Admits (tally_seen self.old) (spec.known_name name.now) (tally_seen self.new) result }
    {
        !is_long(name) && !self.is_unknown(name)
    }

    fn admit_sign(&mut self) -> bool
        ensures { Admits (tally_seen self.old) spec.sign (tally_seen self.new) result }
    {
        self.has_signs()
    }

    fn admit_class(&mut self, name: &'a str) -> Result<bool, AllocError>
        ensures { IfOk result (Admits (tally_seen self.old) (spec.class_name name.now) (tally_seen self.new)) }
    {
        if name == "Object"
            || is_long(name)
            || self.classes.len() >= MOST_CLASSES
            || self.has_full_size()
            || !self.classes.add(name)?
        {
            return Ok(false);
        }
        self.fields = 0;
        self.methods = 0;
        self.params = 0;
        self.sends = 0;
        self.assigns = 0;
        self.param_names.clear();
        self.nodes = 0;
        self.count_declaration();
        Ok(true)
    }

    fn admit_field(&mut self, name: &str) -> bool
        ensures { Admits (tally_seen self.old) (spec.field_name name.now) (tally_seen self.new) result }
    {
        if is_long(name) || self.fields >= MOST_FIELDS || self.has_full_size() {
            return false;
        }
        self.fields += 1;
        self.count_declaration();
        true
    }

    fn admit_method(&mut self, name: &str) -> bool
        ensures { Admits (tally_seen self.old) (spec.method_name name.now) (tally_seen self.new) result }
    {
        if is_long(name) || self.methods >= MOST_METHODS || self.has_full_size() {
            return false;
        }
        self.methods += 1;
        self.param_names.clear();
        self.nodes = 0;
        self.count_declaration();
        true
    }

    fn admit_param(&mut self, name: &str) -> bool
        ensures { Admits (tally_seen self.old) (spec.param_name name.now) (tally_seen self.new) result }
    {
        if is_long(name) || self.params >= MOST_IN_CTOR || self.has_full_size() {
            return false;
        }
        self.params += 1;
        self.count_declaration();
        true
    }

    fn admit_method_param(&mut self, name: &'a str) -> Result<bool, AllocError>
        ensures { IfOk result (Admits (tally_seen self.old) (spec.method_param_name name.now) (tally_seen self.new)) }
    {
        if is_long(name)
            || self.param_names.len() >= MOST_PARAMS
            || self.has_full_size()
            || !self.param_names.add(name)?
        {
            return Ok(false);
        }
        self.count_declaration();
        Ok(true)
    }

    fn admit_sent(&mut self, name: &str) -> bool
        ensures { Admits (tally_seen self.old) (spec.sent_name name.now) (tally_seen self.new) result }
    {
        if is_long(name) || self.sends >= MOST_IN_CTOR || self.has_full_size() {
            return false;
        }
        self.sends += 1;
        self.count_declaration();
        true
    }

    fn admit_assigned(&mut self, name: &str) -> bool
        ensures { Admits (tally_seen self.old) (spec.assigned_name name.now) (tally_seen self.new) result }
    {
        if is_long(name) || self.assigns >= MOST_IN_CTOR || self.has_full_size() {
            return false;
        }
        self.assigns += 1;
        self.count_declaration();
        true
    }

    fn admit_var(&mut self, name: &str) -> bool
        ensures { Admits (tally_seen self.old) (spec.var_name name.now) (tally_seen self.new) result }
    {
        if is_long(name) || self.nodes >= MOST_NODES || self.has_full_size() {
            return false;
        }
        self.count_node();
        true
    }

    fn admit_used(&mut self, name: &str) -> bool
        ensures { Admits (tally_seen self.old) (spec.used_name name.now) (tally_seen self.new) result }
    {
        if is_long(name) {
            return false;
        }
        self.marks.clear();
        true
    }

    fn admit_formula_node(&mut self) -> bool
        ensures { Admits (tally_seen self.old) spec.formula_node (tally_seen self.new) result }
    {
        if self.formula_nodes >= MOST_FORMULA_NODES {
            return false;
        }
        self.formula_nodes += 1;
        true
    }

    fn admit_formula_opens(&mut self, depth: usize) -> bool
        ensures { Admits (tally_seen self.old) (spec.formula_opens depth) (tally_seen self.new) result }
    {
        if self.formula_nodes >= MOST_FORMULA_NODES || is_deep(depth) {
            return false;
        }
        self.formula_nodes += 1;
        true
    }

    fn admit_opens(&mut self, depth: usize) -> bool
        ensures { Admits (tally_seen self.old) (spec.opens depth) (tally_seen self.new) result }
    {
        if is_deep(depth) {
            return false;
        }
        self.marks.clear();
        true
    }

    fn admit_cast(&mut self, depth: usize) -> bool
        ensures { Admits (tally_seen self.old) (spec.casts depth) (tally_seen self.new) result }
    {
        if is_deep(depth) || self.nodes >= MOST_NODES || self.has_full_size() {
            return false;
        }
        self.count_node();
        true
    }

    fn admit_node(&mut self) -> bool
        ensures { Admits (tally_seen self.old) spec.node (tally_seen self.new) result }
    {
        if self.nodes >= MOST_NODES || self.has_full_size() {
            return false;
        }
        self.count_node();
        true
    }

    fn count_node(&mut self)
        requires nodes { self.old.nodes < 1024 }
        requires room { self.old.size < 1000000 }
        ensures { tally_seen self.new ≡ spec.with_node (tally_seen self.old) }
    {
        self.nodes += 1;
        self.count_declaration();
    }

    /// Counts a declaration, a sent name, an assignment or a node. The marks in hand are its own.
    fn count_declaration(&mut self)
        requires { self.old.size < 1000000 }
        ensures { tally_seen self.new ≡ with_declaration (tally_seen self.old) }
    {
        self.marks.clear();
        self.size += 1;
    }
}
