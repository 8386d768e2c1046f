//! The steps that are left.
ghost use Rattle.values_semantics.specs.Outcome.{tick, spend};
ghost use Rattle.values_heap.specs.View.{Says};

use values_objects::Halt;
use values_semantics::faults;

/// Takes one step, or returns fault 11.
pub fn tick(steps: &mut u64) -> Result<(), Halt>
    ensures { Says (tick steps.old) result steps.new }
{
    if *steps == 0 {
        return Err(Halt::Code(faults::STEPS_SPENT));
    }
    *steps -= 1;
    Ok(())
}

/// Takes `n` steps, or returns fault 11.
pub fn spend(steps: &mut u64, n: usize) -> Result<(), Halt>
    ensures { Says (spend n steps.old) result steps.new }
{
    if *steps < n as u64 {
        return Err(Halt::Code(faults::STEPS_SPENT));
    }
    *steps -= n as u64;
    Ok(())
}
