// The sheet that a call is given: read into a work space, and its outline.
ghost use Rattle.std.specs.Prelude.{◌≤◌, length};
ghost use Rattle.limits.specs.Limits.{most_numbers};
ghost use Rattle.answering.specs.Intake.{TakenIn};

use accepted::outline::{Outline, outline_of};
use limits::refusals::Refusal;
use sheet::reading::read;

// How many numbers an accepted sheet has, and its outline.
#[derive(Clone, Copy)]
pub struct Intake {
    pub length: usize,
    pub outline: Outline,
}

// The sheet's numbers are put at the front of the memory.
pub fn take_in(sheet: &[u8], memory: &mut [u32]) -> Result<Intake, Refusal>
    requires { most_numbers ≤ length memory.old }
    ensures { TakenIn sheet.now result memory.new }
{
    let length = read(sheet, memory)?;
    let outline = outline_of(&memory[..length]);
    Ok(Intake { length, outline })
}
