use crate::fields::bytes_in;
use object::checked::ObjectFault;
use object::inspect::inspect;
use outcomes::Numbered;
use std::alloc::Global;

// inspected is the answer of the inspection of an object in hex, in the words of a file of inspections.
pub(crate) fn inspected(heap: Global, given: &str) -> anyhow::Result<String> {
    let object = bytes_in(heap, given)?;
    Ok(match inspect(&object) {
        Ok(checked) => {
            let size = checked.code().len();
            let globals = checked.globals();
            let main = checked.main();
            format!(in heap; "accepted {size} {globals} {main}")?
        }
        Err(ObjectFault { refusal, offset }) => {
            format!(in heap; "refused {} {offset}", refusal.number())?
        }
    })
}
