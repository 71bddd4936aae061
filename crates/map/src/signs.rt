// The signs that cells are drawn with. Both ways are functions, since `u8::try_from` of a sign is its number in std.
ghost use Rattle.std.specs.Prelude.{◌≡◌, IfSome};
ghost use Rattle.map.specs.Signs.{byte_of, sign_of};

use field::SOLID;

// The map's byte of a sign: a zone, or that of a solid cell. The sign of that byte is the sign.
pub fn byte_of(sign: char) -> Option<u8>
    ensures value { result ≡ byte_of sign }
    ensures back { IfSome result (λ byte. sign_of byte ≡ sign) }
{
    match sign {
        '#' => Some(SOLID),
        '.' => Some(0),
        '1'..='9' => Some(sign as u8 - b'0'),
        'a'..='z' => Some(sign as u8 - b'a' + 10),
        'A'..='Z' => Some(sign as u8 - b'A' + 36),
        '+' => Some(62),
        '-' => Some(63),
        _ => None,
    }
}

// The sign of a byte of the map.
pub fn sign_of(byte: u8) -> char
    ensures { result ≡ sign_of byte }
{
    match byte {
        0 => '.',
        1..=9 => (byte + b'0') as char,
        10..=35 => (byte - 10 + b'a') as char,
        36..=61 => (byte - 36 + b'A') as char,
        62 => '+',
        63 => '-',
        _ => '#',
    }
}
