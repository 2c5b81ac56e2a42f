// The registers lent for one step: the check register and the error-pattern register advance together
// (document 01, "The 800 record").
ghost use Rattle.std.specs.Prelude.{◌<◌};
ghost use Rattle.cyclic.specs.Step.{Advanced};

use crate::Code800;

// The lent registers advance by one character.
pub fn enter(registers: &mut Code800, character: u16, wrong: u16)
    requires { (registers.old.check < 512) × (registers.old.error < 512) × (wrong < 2) }
    ensures { Advanced registers.old character wrong registers.new }
{
    *registers = registers.entered(character, wrong);
}
