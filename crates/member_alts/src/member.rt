//! What a field and a method have in common.

ghost use Rattle.std.specs.Prelude.{◌≡◌, ℕ, List};
ghost use Rattle.cfj_model.specs.Members.{field_name_of, method_name_of};

use cfj_model::{Field, Method};

/// A member of a class: it has a name, and an alt.
pub(crate) trait Member {
    ghost name_of: { Self → List ℕ };

    ghost with_alt: { Self → ℕ → Self };

    /// Its name.
    fn name(&self) -> &str
        ensures { result.now ≡ name_of self.now };

    /// Gives it this alt.
    fn set_alt(&mut self, alt: u16)
        ensures { self.new ≡ with_alt self.old alt };
}

impl Member for Field {
    ghost name_of = { field_name_of };

    ghost with_alt = { λ f n. record f { alt = n } };

    fn name(&self) -> &str {
        self.name.text()
    }

    fn set_alt(&mut self, alt: u16) {
        self.alt = alt;
    }
}

impl Member for Method {
    ghost name_of = { method_name_of };

    ghost with_alt = { λ m n. record m { alt = n } };

    fn name(&self) -> &str {
        self.name.text()
    }

    fn set_alt(&mut self, alt: u16) {
        self.alt = alt;
    }
}
