// Numbers in mixed radix: a list of bases, and for each base a digit below it, the first of most weight.
ghost use Rattle.std.specs.Prelude.{◌≡◌, ◌<◌, ◌+◌, ◌*◌, ◌^◌, ◌/◌, ◌%◌};
ghost use Rattle.std.specs.List.{All};
ghost use Rattle.dob_rank.specs.Numbers.{product, number_of, digits_of, HasDigits};

/// How many numbers the bases write: their product.
pub fn product(bases: &[u64]) -> u64
    requires positive { All (λ base. 0 < base) bases.now }
    requires fits { product bases.now < 2 ^ 64 }
    ensures { result ≡ product bases.now }
{
    let mut weight = 1;
    for i in (0..bases.len()).rev() {
        weight *= bases[i];
    }
    weight
}

/// The number that three digits write.
pub fn number_of(bases: &[u64; 3], digits: &[u64; 3]) -> u64
    requires below { HasDigits bases.now digits.now }
    requires fits { product bases.now < 2 ^ 64 }
    ensures { result ≡ number_of bases.now digits.now }
{
    (digits[0] * bases[1] + digits[1]) * bases[2] + digits[2]
}

/// The three digits of a number. Inlined, so that digits that nobody reads are not found.
#[inline(always)]
pub fn three_digits(bases: &[u64; 3], number: u64) -> [u64; 3]
    requires { number < product bases.now }
    ensures { result ≡ digits_of bases.now number }
{
    let (rest, third) = split(number, bases[2]);
    let (first, second) = split(rest, bases[1]);
    [first, second, third]
}

// The quotient and the remainder by a base. The bases of sets of up to three pieces are listed, so that there is no
// division by a variable, which takes longer than the rest of a rank.
#[inline(always)]
fn split(number: u64, base: u64) -> (u64, u64)
    requires { 0 < base }
    ensures quotient { result.0 ≡ number / base }
    ensures rest { result.1 ≡ number % base }
{
    match base {
        1 => (number, 0),
        2 => (number / 2, number % 2),
        3 => (number / 3, number % 3),
        8 => (number / 8, number % 8),
        9 => (number / 9, number % 9),
        10 => (number / 10, number % 10),
        36 => (number / 36, number % 36),
        45 => (number / 45, number % 45),
        _ => (number / base, number % base),
    }
}
