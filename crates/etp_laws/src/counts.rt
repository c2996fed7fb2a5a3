ghost use Rattle.std.specs.Prelude.{◌≡◌, ◌⊎◌, ◌<◌, ◌≤◌, ◌+◌, ◌*◌, MatchOption, length};
ghost use Rattle.etp_laws.specs.Words.{CountsWords};
ghost use Rattle.etp_laws.specs.Places.{words_count, pairs_below, laws_below};
ghost use Rattle.etp_laws.specs.Enumeration.{shapes};

/// At 9 r + k: how many words of r variables go on after k variables. With no variable to come it
/// is 1; else it is k times the entry of one variable less, and that entry's right neighbour.
const WORDS: [u32; 81] = [
    1, 1, 1, 1, 1, 1, 1, 1, 1, //
    1, 2, 3, 4, 5, 6, 7, 8, 9, //
    2, 5, 10, 17, 26, 37, 50, 65, 82, //
    5, 15, 37, 77, 141, 235, 365, 537, 757, //
    15, 52, 151, 372, 799, 1540, 2727, 4516, 7087, //
    52, 203, 674, 1915, 4736, 10427, 20878, 38699, 67340, //
    203, 877, 3263, 10481, 29371, 73013, 163967, 338233, 649931, //
    877, 4140, 17007, 60814, 190497, 529032, 1322035, 3017562, 6376149, //
    4140, 21147, 94828, 372939, 1291020, 3967195, 10949772, 27499083, 63625324,
];

/// How many shapes have 0 to 5 operations.
const SHAPES: [u32; 6] = [1, 1, 2, 5, 14, 42];

/// How many laws have fewer than 0 to 5 operations.
const LAWS_BELOW: [u32; 6] = [0, 2, 7, 46, 410, 4694];

/// How many words of `leaves` variables, numbered by first occurrence, go on after `used`
/// variables; None exactly where one of the two is above 8.
pub fn words(leaves: u32, used: u32) -> Option<u64>
    ensures { MatchOption result ((8 < leaves) ⊎ (8 < used))
        (λ n. (leaves ≤ 8) × (used ≤ 8) × (n ≡ words_count leaves used)
        × CountsWords leaves used n) }
{
    if leaves > 8 || used > 8 {
        return None;
    }
    Some(words_of(leaves, used) as u64)
}

/// How many words of `leaves` variables go on after `used` variables.
pub fn words_of(leaves: u32, used: u32) -> u32
    requires short { leaves ≤ 8 }
    requires few { used ≤ 8 }
    ensures value { result ≡ words_count leaves used }
    ensures some { 0 < result }
{
    WORDS[(leaves * 9 + used) as usize]
}

/// How many shapes have this many operations.
pub fn shapes_of(ops: u32) -> u32
    requires { ops ≤ 5 }
    ensures value { result ≡ length (shapes ops) }
    ensures small { result ≤ 42 }
{
    SHAPES[ops as usize]
}

/// How many laws have fewer operations.
pub fn laws_below(ops: u32) -> u32
    requires { ops ≤ 5 }
    ensures value { result ≡ laws_below ops }
    ensures small { result ≤ 4694 }
{
    LAWS_BELOW[ops as usize]
}

/// How many pairs of shapes with `ops` operations have a left one of fewer than `left`.
pub fn pairs_below(ops: u32, left: u32) -> u32
    requires within { left ≤ ops }
    requires small { ops ≤ 5 }
    ensures value { result ≡ pairs_below ops left }
    ensures small { result ≤ 8820 }
{
    let mut pairs = 0;
    for i in 0..left {
        pairs += shapes_of(i) * shapes_of(ops - i);
    }
    pairs
}
