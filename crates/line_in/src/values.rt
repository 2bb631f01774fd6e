// What a field holds: a whole number, or one digit, 0 or 1 (document 01, "Journal program").
ghost use Rattle.std.specs.Prelude.{◌≡◌};
ghost use Rattle.line_in.specs.Form.{number, flag};

// The whole number that a field is: "1 to 8 digits".
pub fn number_of(field: &[u8]) -> Option<u32>
    ensures { result ≡ number field.now }
{
    if field.is_empty() || field.len() > 8 {
        return None;
    }
    let mut n: u32 = 0;
    for b in field {
        match *b {
            b'0'..=b'9' => n = n * 10 + u32::from(*b - b'0'),
            _ => return None,
        }
    }
    Some(n)
}

// "one digit, 0 or 1".
pub fn flag_of(field: &[u8]) -> Option<bool>
    ensures { result ≡ flag field.now }
{
    match field {
        b"0" => Some(false),
        b"1" => Some(true),
        _ => None,
    }
}
