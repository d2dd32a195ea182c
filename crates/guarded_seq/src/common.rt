//! What two sequences have in common at their ends.

ghost use Rattle.std.specs.Prelude.{◌≡◌, ◌-◌, ◌≤◌, ◌==◌, ◌&&◌, true, length, take, drop};
ghost use Rattle.std.specs.Cmp.Lexicographic.{pointwise};
ghost use Rattle.guarded_seq.specs.Rows.{is_same};

use crate::guarded::Guarded;

/// Whether two items have one gate and equal labels.
fn is_same<T: Eq>(left: &Guarded<T>, right: &Guarded<T>) -> bool
    ensures { result ≡ is_same T.eq left.now right.now }
{
    left.gate == right.gate && left.item == right.item
}

/// How many items from the front are the same in both.
pub fn common_front<T: Eq>(left: &[Guarded<T>], right: &[Guarded<T>]) -> usize
    ensures left { result ≤ length left.now }
    ensures right { result ≤ length right.now }
    ensures same { pointwise (is_same T.eq) (take result left.now) (take result right.now) ≡ true }
{
    let most = left.len().min(right.len());
    for i in 0..most {
        if !is_same(&left[i], &right[i]) {
            return i;
        }
    }
    most
}

/// How many items from the back are the same in both.
pub fn common_back<T: Eq>(left: &[Guarded<T>], right: &[Guarded<T>]) -> usize
    ensures left { result ≤ length left.now }
    ensures right { result ≤ length right.now }
    ensures same { pointwise (is_same T.eq) (drop (length left.now - result) left.now) (drop (length right.now - result) right.now) ≡ true }
{
    let most = left.len().min(right.len());
    for i in 0..most {
        if !is_same(&left[left.len() - 1 - i], &right[right.len() - 1 - i]) {
            return i;
        }
    }
    most
}
