//! Objects by their names, in memory.

ghost use Rattle.std.specs.Prelude.{◌≡◌};
ghost use Rattle.std.specs.Option.{option_copied};
ghost use Rattle.std.specs.Vec.{vec_len};
ghost use Rattle.cide_io.specs.Faults.{raised};
ghost use Rattle.cide_io.specs.Memory.{is_listed, named, look_up, opened};

use crate::calls::Calls;

/// The first object of this name.
pub fn first_named<'a, X>(pairs: &'a [(String, X)], name: &str) -> Option<&'a X>
    ensures { option_copied result ≡ look_up (named pairs.now) name.now }
{
    'pairs: for pair in pairs {
        if pair.0.as_str() == name {
            return Some(&pair.1);
        }
    }
    None
}

/// Counts one more open, and gives the object of this name where the open doesn't fail.
pub fn open_next<'a, X>(opens: &mut Calls, pairs: &'a [(String, X)], name: &str) -> Option<&'a X>
    ensures found { option_copied result ≡ opened opens.old.fails.items opens.old.made (named pairs.now) name.now }
    ensures same { opens.new.fails ≡ opens.old.fails }
    ensures counted { opens.new.made ≡ raised opens.old.made }
{
    if opens.next_fails() {
        return None;
    }
    first_named(pairs, name)
}

/// Takes the pairs apart, the last first, and ends each object.
pub fn end_all<X, F: FnMut(X)>(mut pairs: Vec<(String, X)>, mut end: F)
    requires { F.IsAlwaysCallable end }
{
    'pairs: while let Some((_, object)) = pairs.pop() {
        end(object);
    }
    pairs.destroy_empty();
}
