// Numbers in digits, read from a field.
ghost use Rattle.std.specs.Prelude.{◌≡◌};
ghost use Rattle.digits.specs.Numbers.{is_formed, number_of};

// Whether a field is 1 to so many digits, with no leading zero unless it is 0 itself.
fn formed(field: &[u8], most: usize) -> bool
    ensures { result ≡ is_formed most field.now }
{
    if !(1..=most).contains(&field.len()) {
        return false;
    }
    let zero_first = field[0] == b'0';
    if zero_first && 1 < field.len() {
        return false;
    }
    field.iter().all(|byte| byte.is_ascii_digit())
}

// The number of a field of 1 to so many digits, at most `most`; a value that leaves 64 bits is above every `most`.
#[tactic(auto, using(crate::proofs::Spelling::not_formed, crate::proofs::Spelling::number_above, crate::proofs::Spelling::value_grows, crate::proofs::Spelling::value_next, crate::proofs::Spelling::digits_next, crate::proofs::Spelling::formed_digits, crate::proofs::Spelling::value_end, crate::proofs::Spelling::number_formed), unfolding(crate::specs::Numbers::value_of))]
pub fn read_number(field: &[u8], digits: usize, most: u64) -> Option<u64>
    ensures { result ≡ number_of digits most field.now }
{
    if !formed(field, digits) {
        return None;
    }
    let mut value: u64 = 0;
    for byte in field {
        let digit = u64::from(*byte - b'0');
        value = value.checked_mul(10)?.checked_add(digit)?;
    }
    (value <= most).then_some(value)
}
