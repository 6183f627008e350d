ghost use Rattle.machine.specs.Machines.{SameStores, contents};
ghost use Rattle.samples.specs.Beginning.{BegunAs};
ghost use Rattle.samples.specs.declared.begin.Unfit.TheVariants.{Object, Stores as StoresUnfit};
ghost use Rattle.std.specs.Prelude.{◌≡◌};

use machine::Stores;
use machine::machine::Machine;
use machine::start::start;
use object::checked::ObjectFault;
use object::inspect::inspect;
use outcomes::Refusal;

// Unfit is why no machine begins: the object is refused, or the stores are.
#[derive(Clone, Copy)]
pub enum Unfit {
    Object(ObjectFault),
    Stores(Refusal),
}

impl From<ObjectFault> for Unfit {
    ghost from_gives = { λ fault unfit. unfit ≡ Object fault };

    fn from(fault: ObjectFault) -> Unfit {
        Unfit::Object(fault)
    }
}

impl From<Refusal> for Unfit {
    ghost from_gives = { λ refusal unfit. unfit ≡ StoresUnfit refusal };

    fn from(refusal: Refusal) -> Unfit {
        Unfit::Stores(refusal)
    }
}

// begin makes a machine of the bytes of a file, in four stores.
pub fn begin<'a>(object: &'a [u8], stores: &mut Stores<'_>) -> Result<Machine<'a>, Unfit>
    ensures same { SameStores stores.old stores.new }
    ensures begun { BegunAs result object.now (contents stores.old) (contents stores.new) }
{
    let checked = inspect(object)?;
    Ok(start(checked, stores)?)
}
