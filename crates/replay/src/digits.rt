// A request's decimal digits.
ghost use Rattle.std.specs.Prelude.{◌<◌, IfSome};

// No refusal and no bound, as decimal's own has.
pub fn digit(b: u8) -> Option<u8>
    ensures { IfSome result (λ d. d < 10) }
{
    match b {
        b'0'..=b'9' => Some(b - b'0'),
        _ => None,
    }
}

// A ? for what is over 9.
pub fn shown(code: u8) -> u8 {
    match code {
        0..=9 => code + b'0',
        _ => b'?',
    }
}
