// Numbers in the order of a seed, in the caller's memory.
ghost use Rattle.std.specs.Prelude.{◌≡◌, ◌<◌, ◌≤◌, ◌^◌};
ghost use Rattle.dobutsu_c.specs.Shuffled.{IsDrawn};

use dob_shuffle::Shuffle;

// So many numbers, and more, aren't shuffled.
const TOO_MANY: u64 = 1 << 63;

/// The numbers below `count`, each once, in the order that the seed makes: that in which the program's `puzzles --random` goes over so many classes. The
/// first call is asked with 0 in `place`. It writes the first numbers into `numbers`, as many as there is room for, and into `place` where the next call goes on,
/// with the same seed and the same count. It answers how many numbers it has written: fewer than there is room for where none is left, and then 0. The places
/// of `numbers` behind them are left as they were. If `count` is 2^63 or more it answers 0 and writes nothing. It takes no memory, and for each number some
/// tens of nanoseconds.
#[unsafe(no_mangle)]
pub extern "C" fn dobutsu_shuffled(
    seed: u64,
    count: u64,
    place: &mut u64,
    numbers: &mut [u64],
) -> u64
    ensures drawn { count < 2 ^ 63 → IsDrawn seed count place.old place.new result numbers.old numbers.new }
    ensures none { 2 ^ 63 ≤ count → (result ≡ 0) × (place.new ≡ place.old) × (numbers.new ≡ numbers.old) }
{
    if count >= TOO_MANY {
        return 0;
    }
    let shuffle = Shuffle::new(seed, count);
    let first = *place;
    let end = shuffle.places();
    let mut written = 0;
    for at in first..end {
        if written == numbers.len() {
            *place = at;
            return written as u64;
        }
        let number = shuffle.number_at(at);
        if number < count {
            numbers[written] = number;
            written += 1;
        }
    }
    *place = end;
    written as u64
}
