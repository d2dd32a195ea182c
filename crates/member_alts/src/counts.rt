//! How often each name was counted.

ghost use Rattle.std.specs.Prelude.{◌≡◌, ◌+◌, IfOk, OnOk, List, ℕ, if◌then◌else◌};
ghost use Rattle.std.specs.Str.{bytes_eq};
ghost use Rattle.member_alts.specs.Counts.{count_in};

use indexmap::IndexMap;
use std::alloc::AllocError;

/// Counts a name once more; how often it was counted before.
///
/// # Errors
///
/// There is no memory for it, or it was counted 65,536 times before.
pub(crate) fn count<'a>(
    counts: &mut IndexMap<&'a str, u32>,
    name: &'a str,
) -> Result<u16, AllocError>
    ensures before { IfOk result (λ before. before ≡ count_in counts.old name.now) }
    ensures counted { OnOk result ((w : List ℕ) → count_in counts.new w ≡ count_in counts.old w + (if bytes_eq name.now w then 1 else 0)) }
{
    let before = counts.get(name).copied().unwrap_or(0);
    let alt = u16::try_from(before).map_err(|_| AllocError)?;
    counts.insert(name, before + 1)?;
    Ok(alt)
}
