// Quotients and remainders by powers of 2, which shifts and masks give.
ghost use Rattle.std.specs.Prelude.{◌≡◌, ◌<◌, ◌≤◌, ◌+◌, ◌*◌, ◌^◌, ◌/◌, ◌%◌};

/// The quotient and the remainder by a power of 2.
pub fn split_by_power(number: u64, exponent: u64) -> (u64, u64)
    requires { exponent ≤ 32 }
    ensures quotient { result.0 ≡ number / 2 ^ exponent }
    ensures rest { result.1 ≡ number % 2 ^ exponent }
{
    (number >> exponent, number & ((1 << exponent) - 1))
}

/// The number whose quotient and remainder by a power of 2 those are.
pub fn join_by_power(quotient: u64, rest: u64, exponent: u64) -> u64
    requires exponent { exponent ≤ 31 }
    requires quotient { quotient < 2 ^ 31 }
    requires rest { rest < 2 ^ 32 }
    ensures { result ≡ quotient * 2 ^ exponent + rest }
{
    (quotient << exponent) + rest
}
