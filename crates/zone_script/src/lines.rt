//! Lines and their fields.
ghost use Rattle.std.specs.Prelude.{◌≡◌, ◌<◌, ◌==◌, [], ◌∷◌, length, IfSome, IfNone};
ghost use Rattle.std.specs.List.{slice_split};
ghost use Rattle.std.specs.Option.{option_map_or};
ghost use Rattle.zone_script.specs.ScriptLines.{script_lines, is_skipped as skips};

use memchr::memchr;

/// What stands before the first octet of a kind, and what stands after it if there is one.
pub(crate) fn cut(octets: &[u8], at: u8) -> (&[u8], Option<&[u8]>)
    ensures split { slice_split (λ o. o == at) octets.now ≡ result.0.now ∷ option_map_or (λ rest. slice_split (λ o. o == at) rest.now) result.1 [] }
    ensures shorter { IfSome result.1 (λ rest. length rest.now < length octets.now) }
    ensures whole { IfNone result.1 (result.0.now ≡ octets.now) }
{
    match memchr(at, octets) {
        Some(place) => (&octets[..place], Some(&octets[place + 1..])),
        None => (octets, None),
    }
}

/// The first line, without its end (0x0a), and the octets after it; None where no octet is left. The last line may lack its end.
pub fn next_line(octets: &[u8]) -> Option<(&[u8], &[u8])>
    ensures found { IfSome result (λ r. script_lines octets.now ≡ r.0.now ∷ script_lines r.1.now) }
    ensures shorter { IfSome result (λ r. length r.1.now < length octets.now) }
    ensures none { IfNone result (octets.now ≡ []) }
{
    if octets.is_empty() {
        return None;
    }
    let (line, rest) = cut(octets, b'\n');
    match rest {
        Some(rest) => Some((line, rest)),
        None => Some((line, &[])),
    }
}

/// Whether a line is empty or a comment, which begins with `#`.
pub fn is_skipped(line: &[u8]) -> bool
    ensures { result ≡ skips line.now }
{
    match line {
        [] => true,
        [first, ..] => *first == b'#',
    }
}
