// Where the blocks of each piece set begin, in a table: a sum over the blocks before would cost a rank most of its
// time.
ghost use Rattle.std.specs.Prelude.{◌≡◌, ◌<◌, ◌≤◌, ◌+◌, ◌^◌};
ghost use Rattle.dob_pieces.specs.declared.profile.Profile.TheVariants.{A, B};
ghost use Rattle.dob_rank.specs.Numbers.{product, sum_below, block_bases, block_size, start_of};
ghost use Rattle.dob_rank.specs.Marks.{marks_below};
ghost use Rattle.dob_rank.specs.Families.{is_present, size_of};

use crate::block;
use dob_pieces::{Family, Profile};

// How many profiles there are.
const PROFILES: usize = 2;

// How many piece sets there are: three numbers of 0 to 2 each.
const SETS: usize = 27;

// How many starts all piece sets have: one for each block, and the end.
const ALL_STARTS: usize = 243;

// For each piece set, in the order of its digits, how many starts the sets before it have.
const FIRST: [u64; SETS] = [
    0, 2, 5, 9, 12, 17, 24, 28, 35, 45, 48, 53, 60, 65, 74, 87, 94, 107, 126, 130, 137, 147, 154,
    167, 186, 196, 215,
];

// For each profile and each piece set, in the order of its digits, how many positions stand before each block and before the end.
const STARTS: [[u64; ALL_STARTS]; PROFILES] = [
    [
        0, 99, 0, 198, 2178, 0, 297, 4257, 22077, 0, 198, 2178, 0, 396, 4356, 8316, 43956, 0, 594,
        8514, 44154, 50094, 121374, 406494, 0, 297, 4257, 22077, 0, 594, 6534, 14454, 85734,
        121374, 406494, 0, 891, 12771, 66231, 78111, 220671, 790911, 844371, 1414611, 3410451, 0,
        198, 4158, 0, 396, 4356, 12276, 83556, 0, 594, 8514, 44154, 56034, 198594, 768834, 0, 396,
        4356, 12276, 83556, 0, 792, 8712, 16632, 87912, 103752, 246312, 388872, 1529352, 0, 1188,
        17028, 88308, 100188, 242748, 812988, 836748, 1121868, 2262348, 2476188, 4757148, 12740508,
        0, 594, 8514, 44154, 56034, 198594, 768834, 0, 1188, 13068, 28908, 171468, 242748, 812988,
        836748, 1050588, 1335708, 3616668, 4757148, 12740508, 0, 1782, 25542, 132462, 156222,
        441342, 1581822, 1688742, 2829222, 6820902, 6856542, 7284222, 8994942, 9422622, 13984542,
        29951262, 31661982, 47628702, 95528862, 0, 297, 8217, 79497, 0, 594, 6534, 22374, 164934,
        307494, 1447974, 0, 891, 12771, 66231, 89991, 375111, 1515591, 1729431, 4010391, 11993751,
        0, 594, 6534, 22374, 164934, 307494, 1447974, 0, 1188, 13068, 24948, 131868, 163548,
        448668, 733788, 3014748, 3299868, 5580828, 7861788, 23828508, 0, 1782, 25542, 132462,
        150282, 364122, 1219482, 1267002, 1837242, 4118202, 4545882, 9107802, 25074522, 25502202,
        30064122, 46030842, 49452282, 81385722, 177186042, 0, 891, 12771, 66231, 89991, 375111,
        1515591, 1729431, 4010391, 11993751, 0, 1782, 19602, 43362, 257202, 364122, 1219482,
        1267002, 1694682, 2264922, 6826842, 9107802, 25074522, 25502202, 28923642, 33485562,
        65419002, 81385722, 177186042, 0, 2673, 38313, 198693, 234333, 662013, 2372733, 2533113,
        4243833, 10231353, 10302633, 11157993, 14579433, 15434793, 24558633, 56492073, 59913513,
        91846953, 187647273, 188288793, 195131673, 219081753, 225924633, 289791513, 481392153,
        505342233, 696942873, 1175944473,
    ],
    [
        0, 99, 0, 198, 2178, 0, 297, 4257, 22077, 0, 198, 2178, 0, 396, 4356, 8316, 43956, 0, 594,
        8514, 44154, 50094, 121374, 406494, 0, 297, 4257, 22077, 0, 594, 6534, 14454, 85734,
        121374, 406494, 0, 891, 12771, 66231, 78111, 220671, 790911, 844371, 1414611, 3410451, 0,
        198, 3648, 0, 396, 4356, 11256, 73356, 0, 594, 8514, 44154, 54504, 178704, 675504, 0, 396,
        4356, 11256, 73356, 0, 792, 8712, 16632, 87912, 101712, 225912, 350112, 1343712, 0, 1188,
        17028, 88308, 100188, 242748, 812988, 833688, 1082088, 2075688, 2261988, 4249188, 11204388,
        0, 594, 8514, 44154, 54504, 178704, 675504, 0, 1188, 13068, 28908, 171468, 242748, 812988,
        833688, 1019988, 1268388, 3255588, 4249188, 11204388, 0, 1782, 25542, 132462, 156222,
        441342, 1581822, 1688742, 2829222, 6820902, 6851952, 7224552, 8714952, 9087552, 13061952,
        26972352, 28462752, 42373152, 84104352, 0, 297, 7197, 61197, 0, 594, 6534, 20334, 144534,
        252534, 1116534, 0, 891, 12771, 66231, 86931, 335331, 1328931, 1490931, 3218931, 9266931,
        0, 594, 6534, 20334, 144534, 252534, 1116534, 0, 1188, 13068, 24948, 131868, 159468,
        407868, 656268, 2643468, 2859468, 4587468, 6315468, 18411468, 0, 1782, 25542, 132462,
        150282, 364122, 1219482, 1260882, 1757682, 3744882, 4117482, 8091882, 22002282, 22326282,
        25782282, 37878282, 40470282, 64662282, 137238282, 0, 891, 12771, 66231, 86931, 335331,
        1328931, 1490931, 3218931, 9266931, 0, 1782, 19602, 43362, 257202, 364122, 1219482,
        1260882, 1633482, 2130282, 6104682, 8091882, 22002282, 22326282, 24918282, 28374282,
        52566282, 64662282, 137238282, 0, 2673, 38313, 198693, 234333, 662013, 2372733, 2533113,
        4243833, 10231353, 10293453, 11038653, 14019453, 14764653, 22713453, 50534253, 53515053,
        81335853, 164798253, 165284253, 170468253, 188612253, 193796253, 242180253, 387332253,
        405476253, 550628253, 913508253,
    ],
];

// The place of a profile's starts in the table.
fn place_of(profile: Profile) -> usize
    ensures first { profile ≡ A → result ≡ 0 }
    ensures second { profile ≡ B → result ≡ 1 }
    ensures bound { result < 2 }
{
    profile as usize
}

/// How many positions of the family stand before the block of that number.
pub(crate) fn block_start(family: Family, block: u64) -> u64
    requires { block ≤ product (block_bases family.set) }
    ensures value { result ≡ marks_below (is_present family) (start_of family.set block) }
    ensures whole { family.profile ≡ A → result ≡ sum_below (block_size family.set) block }
    ensures bound { result < 2 ^ 31 }
{
    let set = family.set;
    let number = 9 * set.chicks + 3 * set.elephants + set.giraffes;
    let place = FIRST[number as usize] + block;
    STARTS[place_of(family.profile)][place as usize]
}

/// The block in which a rank below the family's size lies, and how many positions of the family the block has before it.
pub(crate) fn find_block(family: Family, rank: u64) -> (u64, u64)
    requires { rank < size_of family }
    ensures block { result.0 < product (block_bases family.set) }
    ensures number { marks_below (is_present family) (start_of family.set result.0) + result.1 ≡ rank }
    ensures within { rank < marks_below (is_present family) (start_of family.set (result.0 + 1)) }
{
    let blocks = block::blocks(family.set);
    let mut start = 0;
    for block in 0..blocks {
        let end = block_start(family, block + 1);
        if rank < end {
            return (block, rank - start);
        }
        start = end;
    }
    (blocks, 0)
}
