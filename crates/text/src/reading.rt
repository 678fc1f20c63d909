// Numbers read back from their texts.
ghost use Rattle.std.specs.Prelude.{◌≡◌, ◌^◌, ◌<◌, ◌≤◌, length, IfSome, SomeIff, codes};
ghost use Rattle.std.specs.Str.{bytes_eq};
ghost use Rattle.text.specs.Numbers.{Inverse, decimal_of, digit_value, hex_of, index_of, number_of};

fn digit_in(base: u32, b: u8) -> Option<u32>
    requires { base ≤ 16 }
    ensures { SomeIff result (digit_value b < base) (digit_value b) }
{
    let value = match b {
        b'0'..=b'9' => b - b'0',
        b'A'..=b'F' => b - b'A' + 10,
        _ => return None,
    };
    let value = u32::from(value);
    (value < base).then_some(value)
}

// Not std's `from_str_radix`: it also takes a sign and lower-case digits. And no `try_fold`: that the sum fits rests on how
// many digits are read, which a closure from a number and a digit does not know.
fn number(base: u32, t: &[u8]) -> Option<u32>
    requires { (base ≤ 16) × (length t.now ≤ 5) }
    ensures value { result ≡ number_of base t.now }
    ensures below { IfSome result (λ n. n < base ^ length t.now) }
{
    let mut n = 0;
    for b in t {
        let digit = digit_in(base, *b)?;
        n = n * base + digit;
    }
    Some(n)
}

// The first clause of `read_decimal`, from which its second follows.
fn decimal(t: &[u8]) -> Option<u32>
    ensures { result ≡ decimal_of t.now }
{
    match t {
        [] | [b'0', _, ..] => None,
        _ if t.len() > 5 => None,
        _ => number(10, t),
    }
}

/// One to five decimal digits without leading zeros; none for any other text.
pub fn read_decimal(t: &[u8]) -> Option<u32>
    ensures value { result ≡ decimal_of t.now }
    ensures inverse { Inverse t.now result }
{
    decimal(t)
}

/// One to five decimal digits without leading zeros, or `-1`; none for any other text.
pub fn read_index(t: &[u8]) -> Option<i32>
    ensures { result ≡ index_of t.now }
{
    if t == b"-1".as_slice() {
        return Some(-1);
    }
    i32::try_from(read_decimal(t)?).ok()
}

fn hex(digits: usize, t: &[u8]) -> Option<u32>
    requires { digits ≤ 5 }
    ensures value { result ≡ hex_of digits t.now }
    ensures below { IfSome result (λ n. n < 16 ^ digits) }
{
    if t.len() != digits {
        return None;
    }
    number(16, t)
}

/// Two upper-case hexadecimal digits; none for any other text.
pub fn read_hex2(t: &[u8]) -> Option<u8>
    ensures { result ≡ hex_of 2 t.now }
{
    u8::try_from(hex(2, t)?).ok()
}

/// Four upper-case hexadecimal digits; none for any other text.
pub fn read_hex4(t: &[u8]) -> Option<u16>
    ensures { result ≡ hex_of 4 t.now }
{
    u16::try_from(hex(4, t)?).ok()
}
