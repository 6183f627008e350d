ghost use Rattle.machine.specs.Answers.{StartedAs};
ghost use Rattle.machine.specs.Machines.{SameStores, contents};

use crate::lengths::Lengths;
use crate::machine::Machine;
use object::checked::Checked;
use outcomes::Refusal;
use step::interpreter::Stores;
use step::registers::Registers;

// start makes a machine of an inspected object, in stores that it clears; or refuses the stores, and changes nothing.
pub fn start<'a>(checked: Checked<'a>, stores: &mut Stores<'_>) -> Result<Machine<'a>, Refusal>
    ensures same { SameStores stores.old stores.new }
    ensures started { StartedAs checked.entry result (contents stores.old) (contents stores.new) }
{
    let lengths = Lengths::of(stores);
    if !lengths.suffice(checked.globals()) {
        return Err(Refusal::UnfitStore);
    }
    stores.data.fill(0);
    stores.heap.fill(0);
    stores.call.fill(0);
    stores.call[0] = -1;
    stores.operand.fill(0);
    let registers = Registers {
        pc: checked.main() as i32,
        frame: 0,
        top: 1,
        height: 0,
        free: 1,
    };
    Ok(Machine {
        code: checked.code(),
        registers,
        lengths,
    })
}
