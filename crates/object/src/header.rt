ghost use Rattle.object.specs.Inspection.{HeaderRead};

use crate::checked::ObjectFault;
use outcomes::Refusal;

// Header is what a header says, and the code behind it. It is no Checked yet: that is well formed by its type.
#[derive(Drop)]
pub(crate) struct Header<'a> {
    pub(crate) code: &'a [u8],
    pub(crate) globals: usize,
    pub(crate) main: usize,
}

// read_header gives what a file holds, or refuses it for its header or its length.
pub(crate) fn read_header(bytes: &[u8]) -> Result<Header<'_>, ObjectFault>
    ensures { HeaderRead bytes.now result }
{
    const UNFIT: ObjectFault = ObjectFault {
        refusal: Refusal::UnfitHeader,
        offset: 0,
    };
    let [
        b'M',
        b'J',
        s0,
        s1,
        s2,
        s3,
        g0,
        g1,
        g2,
        g3,
        m0,
        m1,
        m2,
        m3,
        code @ ..,
    ] = bytes
    else {
        return Err(UNFIT);
    };
    let size = u32::from_be_bytes([*s0, *s1, *s2, *s3]) as usize;
    let globals = u32::from_be_bytes([*g0, *g1, *g2, *g3]) as usize;
    let main = u32::from_be_bytes([*m0, *m1, *m2, *m3]) as usize;
    if code.len() != size || size < 1 || size > 8192 || globals > 65536 || main >= size {
        return Err(UNFIT);
    }
    Ok(Header {
        code,
        globals,
        main,
    })
}
