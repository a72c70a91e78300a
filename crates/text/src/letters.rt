// Single letters: digits and hexadecimal.
ghost use Rattle.std.specs.Prelude.{◌≡◌, true, ◌+◌, ◌-◌, ◌<◌};
ghost use Rattle.text.specs.Letters.{digit_zero};
ghost use Rattle.text.specs.Decimal.{is_digit};
ghost use Rattle.text.specs.Hexadecimal.{hex_letter, is_hex, hex_value};

pub(super) fn digit_letter(d: u64) -> u8
    requires { d < 10 }
    ensures { result ≡ digit_zero + d }
{
    b'0' + d as u8
}

pub(super) fn is_digit(b: u8) -> bool
    ensures { result ≡ is_digit b }
{
    b.is_ascii_digit()
}

pub(super) fn digit_value(b: u8) -> u64
    requires { is_digit b ≡ true }
    ensures { (result ≡ b - digit_zero) × (result < 10) }
{
    (b - b'0') as u64
}

pub(super) fn hex_letter(d: u8) -> u8
    requires { d < 16 }
    ensures { result ≡ hex_letter d }
{
    if d < 10 { b'0' + d } else { b'a' + (d - 10) }
}

pub(super) fn is_hex(b: u8) -> bool
    ensures { result ≡ is_hex b }
{
    if b < b'a' {
        return is_digit(b);
    }
    b <= b'f'
}

pub(super) fn hex_value(b: u8) -> u8
    requires { is_hex b ≡ true }
    ensures { (result ≡ hex_value b) × (result < 16) }
{
    if b < b'a' {
        return b - b'0';
    }
    b - b'a' + 10
}
