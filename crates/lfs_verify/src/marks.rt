//! A mark for each sector of a volume: one more than the step of the walk that reached it, 0 where
//! none did.
ghost use Rattle.std.specs.Prelude.{◌≡◌, ◌<◌, ◌+◌, ◌^◌, ◌↔◌, IsTrue, suc, set};
ghost use Rattle.std.specs.Bool.{OnTrue};
ghost use Rattle.lfs_verify.specs.Walk.{IsUnmarked};

/// Marks a sector of a segment as reached at a step; false where it is none, or was reached before.
pub fn claim(marks: &mut [u32], address: u32, step: u32) -> bool
    requires { step + 1 < 2 ^ 32 }
    ensures is_open { IsTrue result ↔ IsUnmarked marks.old address }
    ensures marked { OnTrue result (marks.new ≡ set marks.old address (suc step)) }
{
    if address < 2 {
        return false;
    }
    if address as usize >= marks.len() {
        return false;
    }
    if marks[address as usize] != 0 {
        return false;
    }
    marks[address as usize] = step + 1;
    true
}
