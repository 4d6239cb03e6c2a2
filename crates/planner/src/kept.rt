// The planner moved on where it is kept (document 01, "The planner"). The supervisor keeps one planner, and the step takes it by value: so
// it is copied out, stepped, and the planner handed back is stored where it was.
ghost use Rattle.planner.specs.InPlace.{MovedInPlace};

use crate::Planner;
use table::Refusal;

// The same answers as a step's: a refusal leaves the planner at `p` as it was.
pub fn move_on(p: &mut Planner, file: &[u8], out: &mut [u64]) -> Result<(), Refusal>
    ensures { MovedInPlace file.now p.old p.new result out.old out.new }
{
    *p = Planner::step(*p, file, out)?;
    Ok(())
}
