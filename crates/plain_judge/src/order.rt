//! The selections in order.

ghost use Rattle.std.specs.Prelude.{◌≡◌, ◌^◌, ◌<◌, ◌≤◌};
ghost use Rattle.cfj_logic.specs.Selections.{has_bit};
ghost use Rattle.plain_judge.specs.Order.{nth};

use cfj_model::Selection;

/// Whether a place has this bit.
fn has_bit(place: u32, bit: u8) -> bool
    ensures { result ≡ has_bit place bit }
{
    bit < 32 && (place >> bit) & 1 == 1
}

/// The selection of so many features at this place of their order, from 0: of two selections the earlier lacks the first feature
/// where they differ.
pub fn nth_selection(features: u8, place: u32) -> Selection
    requires { features ≤ 128 }
    ensures { result ≡ nth features place }
{
    let mut selection = Selection::none(features);
    'each: for feature in 0..features {
        if has_bit(place, features - 1 - feature) {
            selection = selection.with(feature);
        }
    }
    selection
}
