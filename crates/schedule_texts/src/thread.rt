// The numbers of threads.
ghost use Rattle.std.specs.Prelude.{◌≡◌, ℕ, ◌≤◌, ◌-◌, IfSome, IfNone};
ghost use Rattle.schedule_texts.specs.Events.{IsThread};

/// One more than the greatest number of a thread.
const THREADS: u32 = 32;

/// The value of a byte that is a decimal digit.
fn digit(byte: u8) -> u32
    requires { 48 ≤ byte }
    ensures { result ≡ byte - 48 }
{
    (byte - b'0') as u32
}

/// The thread that a word spells in decimal, without leading zeros.
pub fn thread_of(word: &[u8]) -> Option<u32>
    ensures some { IfSome result (λ t. IsThread word.now t) }
    ensures none { IfNone result ((t : ℕ) → ¬ IsThread word.now t) }
{
    let number = match word {
        [one] if one.is_ascii_digit() => digit(*one),
        [ten, one] if (b'1'..=b'3').contains(ten) && one.is_ascii_digit() => digit(*ten) * 10
            + digit(*one),
        _ => return None,
    };
    if number < THREADS { Some(number) } else { None }
}
