//! What an object that is handed back does to its room's count of faults.

ghost use Rattle.std.specs.Prelude.{◌≡◌};
ghost use Rattle.cide_io.specs.Memory.{passed_on};
ghost use Rattle.cide_io.specs.Rooms.{IsPassedOn};

/// Raises a room's count of faults where an object that is handed back has counted any.
pub fn pass_on(faults: u64, count: &mut u64)
    ensures cause { IsPassedOn faults count.old count.new }
    ensures exact { count.new ≡ passed_on faults count.old }
{
    if faults > 0 {
        *count = count.saturating_add(1);
    }
}
