// Who owns which class.
ghost use Rattle.std.specs.Prelude.{◌≡◌, ◌<◌, ◌%◌, ◌/◌};
ghost use Rattle.dob_share.specs.Owners.{owner_of};

/// The owner, one of `n`, of the class: the remainder of its number by `n`, which is at least 1.
pub fn owner(class: u64, n: usize) -> usize
    requires { 0 < n }
    ensures owner { result ≡ owner_of n class }
    ensures one_of_n { result < n }
{
    remainder(class, n as u64) as usize
}

/// The remainder of a number by a number of nodes.
pub fn remainder(number: u64, nodes: u64) -> u64
    requires { 0 < nodes }
    ensures { result ≡ number % nodes }
{
    divide(number, nodes).1
}

/// The quotient of a number by a number of nodes.
pub fn quotient(number: u64, nodes: u64) -> u64
    requires { 0 < nodes }
    ensures { result ≡ number / nodes }
{
    divide(number, nodes).0
}

/// The quotient and the remainder of a number by a number of nodes. A ring has at most 16, and a division by each of these takes no
/// instruction that divides.
pub fn divide(number: u64, nodes: u64) -> (u64, u64)
    requires { 0 < nodes }
    ensures quotient { result.0 ≡ number / nodes }
    ensures remainder { result.1 ≡ number % nodes }
{
    match nodes {
        1 => (number / 1, number % 1),
        2 => (number / 2, number % 2),
        3 => (number / 3, number % 3),
        4 => (number / 4, number % 4),
        5 => (number / 5, number % 5),
        6 => (number / 6, number % 6),
        7 => (number / 7, number % 7),
        8 => (number / 8, number % 8),
        9 => (number / 9, number % 9),
        10 => (number / 10, number % 10),
        11 => (number / 11, number % 11),
        12 => (number / 12, number % 12),
        13 => (number / 13, number % 13),
        14 => (number / 14, number % 14),
        15 => (number / 15, number % 15),
        16 => (number / 16, number % 16),
        _ => (number / nodes, number % nodes),
    }
}
