ghost use Rattle.scanner.specs.Bytes.{IsRun};
ghost use Rattle.std.specs.Prelude.{◌≡◌};
ghost use Rattle.syntax.specs.Lexemes.{is_name_part, is_blank};

// is_name_part says whether a byte can go on with a name.
pub(crate) fn is_name_part(byte: u8) -> bool
    ensures { result ≡ is_name_part byte }
{
    byte.is_ascii_alphanumeric() || byte == b'_'
}

pub(crate) fn is_blank(byte: u8) -> bool
    ensures { result ≡ is_blank byte }
{
    matches!(byte, b'\t' | b'\n' | b'\r' | b' ')
}

// run is the longest front of the text of which each byte passes a test.
pub(crate) fn run<F: Fn(u8) -> bool>(text: &[u8], passes: F) -> &[u8]
    requires { F.IsAlwaysCallable passes }
    ensures { IsRun (F.post passes) text.now result.now }
{
    let size = text
        .iter()
        .position(|&byte| !passes(byte))
        .unwrap_or(text.len());
    &text[..size]
}
