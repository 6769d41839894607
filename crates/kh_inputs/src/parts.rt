//! The parts of an input: a code, and behind its first semicolon a script or a second code.

ghost use Rattle.std.specs.Prelude.{◌≡◌, ◌≤◌, length};
ghost use Rattle.std.specs.List.{prefix_len};
ghost use Rattle.kh_inputs.specs.Parts.{code_part, is_no_semicolon, part_behind};

/// The bytes behind the first semicolon of an input, which are none where there is none.
pub fn part_behind(bytes: &[u8]) -> &[u8]
    ensures part { result.now ≡ part_behind bytes.now }
    ensures within { length result.now ≤ length bytes.now }
{
    let size = code_part(bytes).len();
    bytes.get(size + 1..).unwrap_or(&[])
}

/// The bytes before the first semicolon of an input, and all of them where there is none.
pub fn code_part(bytes: &[u8]) -> &[u8]
    ensures code { result.now ≡ code_part bytes.now }
    ensures within { length result.now ≤ length bytes.now }
{
    let size = code_length(bytes);
    &bytes[..size]
}

/// How many bytes stand before the first semicolon.
fn code_length(bytes: &[u8]) -> usize
    ensures { result ≡ prefix_len is_no_semicolon bytes.now }
{
    bytes.iter().take_while(|byte| **byte != b';').count()
}
