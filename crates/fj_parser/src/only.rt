//! The one item of a list.

ghost use Rattle.std.specs.Prelude.{◌≡◌, [], ◌∷◌, length};

/// The one item of a list.
pub fn only<T: Drop>(list: Vec<T>) -> T
    requires { length list.items ≡ 1 }
    ensures { list.items ≡ result ∷ [] }
{
    let mut list = list;
    match list.pop() {
        Some(item) => item,
        None => unreachable!(),
    }
}
