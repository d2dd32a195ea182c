//! Names from texts that are known to be names.

ghost use Rattle.std.specs.Prelude.{◌≡◌, true, IfOk};
ghost use Rattle.cfj_words.specs.Names.{is_name};

use cfj_model::Name;
use std::alloc::{AllocError, Global};

/// A name with this text.
pub fn name_of(alloc: Global, text: &str) -> Result<Name, AllocError>
    requires { is_name text.now ≡ true }
    ensures { IfOk result (λ name. name ≡ text.now) }
{
    Name::known(alloc, text)
}
