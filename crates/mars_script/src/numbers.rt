//! Numbers as words write them.
ghost use Rattle.std.specs.Prelude.{◌≡◌, ◌≤◌, IfSome};
ghost use Rattle.mars_script.specs.Written.{number_up_to};

/// The number that a word writes, none where it writes none or a greater one than `most`.
pub(crate) fn read_number(word: &str, most: u64) -> Option<u64>
    ensures number { result ≡ number_up_to most word.now }
    ensures bound { IfSome result (λ number. number ≤ most) }
{
    match word.parse::<u64>() {
        Ok(number) if number <= most => Some(number),
        _ => None,
    }
}
