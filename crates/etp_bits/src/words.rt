// Loops over the words of rows of bits.
ghost use Rattle.std.specs.Prelude.{◌≡◌, ◌≢◌, ℕ, ◌+◌, ◌*◌, ◌/◌, ◌%◌, ◌<◌, ◌≤◌, IsTrue, length, slice_index, bit_and, false, not, ◌&&◌, ◌^◌, nat_eq, nat_lt};
ghost use Rattle.std.specs.Int.{bit_at};
ghost use Rattle.etp_bits.specs.Counts.{count_below};
ghost use Rattle.etp_bits.specs.Words.{lit, JoinsWords, JoinsBits, LitInOne};

// Joins words to others of the same list. Each is read before it is written.
pub(crate) fn join_within(words: &mut [u64], into: usize, from: usize, count: usize)
    requires into_fits { into + count ≤ length words.old }
    requires from_fits { from + count ≤ length words.old }
    requires unread { (read written : ℕ) → written < read → read < count → from + read ≢ into + written }
    ensures { JoinsWords words.old words.new words.old into from count }
{
    for place in 0..count {
        words[into + place] |= words[from + place];
    }
}

// Joins the words of another list.
pub(crate) fn join_words(words: &mut [u64], into: usize, other: &[u64], from: usize, count: usize)
    requires into_fits { into + count ≤ length words.old }
    requires from_fits { from + count ≤ length other.now }
    ensures { JoinsWords words.old words.new other.now into from count }
{
    for place in 0..count {
        words[into + place] |= other[from + place];
    }
}

// How many bits are on in these words.
pub(crate) fn count_on(words: &[u64], at: usize, count: usize) -> usize
    requires fits { at + count ≤ length words.now }
    requires few { count ≤ 2 ^ 26 }
    ensures { result ≡ count_below (lit words.now at) (64 * count) }
{
    let mut total = 0;
    for place in 0..count {
        total += words[at + place].count_ones() as usize;
    }
    total
}

// How many bits are on in these words, and off in their partners in the other list.
pub(crate) fn count_without(
    words: &[u64],
    at: usize,
    other: &[u64],
    from: usize,
    count: usize,
) -> usize
    requires at_fits { at + count ≤ length words.now }
    requires from_fits { from + count ≤ length other.now }
    requires few { count ≤ 2 ^ 26 }
    ensures { result ≡ count_below (λ column. lit words.now at column && not (lit other.now from column)) (64 * count) }
{
    let mut total = 0;
    for place in 0..count {
        total += (words[at + place] & !other[from + place]).count_ones() as usize;
    }
    total
}

// Joins the words of another list that are left without those of a further row of it to a row.
pub(crate) fn join_without(
    words: &mut [u64],
    stride: usize,
    into: usize,
    other: &[u64],
    from: usize,
    without: usize,
    count: usize,
)
    requires into_fits { into * stride + stride ≤ length words.old }
    requires narrow { count ≤ stride }
    requires from_fits { from + count ≤ length other.now }
    requires without_fits { without + count ≤ length other.now }
    ensures { JoinsBits words.old words.new stride
        (λ row column. nat_eq row into && (nat_lt (column / 64) count
        && (lit other.now from column && not (lit other.now without column)))) }
{
    for place in 0..count {
        words[into * stride + place] |= other[from + place] & !other[without + place];
    }
}

// Whether a column is on in these words and off in their partners of the other list.
pub(crate) fn any_without(
    words: &[u64],
    at: usize,
    other: &[u64],
    from: usize,
    count: usize,
) -> bool
    requires at_fits { at + count ≤ length words.now }
    requires from_fits { from + count ≤ length other.now }
    ensures found { IsTrue result → LitInOne words.now other.now at from count }
    ensures none { LitInOne words.now other.now at from count → IsTrue result }
{
    let mut rest = 0;
    for place in 0..count {
        rest |= words[at + place] & !other[from + place];
    }
    rest != 0
}

// How many of these words have a bit on.
fn count_some(line: &[u64]) -> usize
    ensures { result ≤ length line.now }
{
    let mut total = 0;
    for word in line {
        if *word != 0 {
            total += 1;
        }
    }
    total
}

// Joins a line of words to the rows of a group of 64 whose bits are on.
fn join_group(words: &mut [u64], stride: usize, group: usize, rows: u64, line: &[u64])
    requires narrow { length line.now ≤ stride }
    requires few { group < 2 ^ 26 }
    requires rows_in { (i : ℕ) → bit_at rows i ≡ 1 → (64 * group + i) * stride + stride ≤ length words.old }
    ensures { JoinsBits words.old words.new stride
        (λ row column. (nat_eq (row / 64) group && nat_eq (bit_at rows (row % 64)) 1)
        && (nat_lt (column / 64) (length line.now) && lit line.now 0 column)) }
{
    let mut left = rows;
    while left != 0 {
        let bit = left.trailing_zeros();
        left &= !(1 << bit);
        let row = 64 * group + bit as usize;
        join_words(words, row * stride, line, 0, line.len());
    }
}

// Joins a line of words to each marked row.
fn join_rows(words: &mut [u64], stride: usize, marks: &[u64], line: &[u64])
    requires narrow { length line.now ≤ stride }
    requires few { length marks.now ≤ 2 ^ 26 }
    requires rows_in { (row : ℕ) → row < 64 * length marks.now → IsTrue (lit marks.now 0 row)
        → row * stride + stride ≤ length words.old }
    ensures { JoinsBits words.old words.new stride
        (λ row column. (nat_lt (row / 64) (length marks.now) && lit marks.now 0 row)
        && (nat_lt (column / 64) (length line.now) && lit line.now 0 column)) }
{
    for group in 0..marks.len() {
        join_group(words, stride, group, marks[group], line);
    }
}

// Joins a word at one place to the rows of a group of 64 whose bits are on.
fn join_place(words: &mut [u64], stride: usize, group: usize, rows: u64, place: usize, word: u64)
    requires within { place < stride }
    requires few { group < 2 ^ 26 }
    requires rows_in { (i : ℕ) → bit_at rows i ≡ 1 → (64 * group + i) * stride + stride ≤ length words.old }
    ensures { JoinsBits words.old words.new stride
        (λ row column. (nat_eq (row / 64) group && nat_eq (bit_at rows (row % 64)) 1)
        && (nat_eq (column / 64) place && nat_eq (bit_at word (column % 64)) 1)) }
{
    let mut left = rows;
    while left != 0 {
        let bit = left.trailing_zeros();
        left &= !(1 << bit);
        let row = 64 * group + bit as usize;
        words[row * stride + place] |= word;
    }
}

// Joins a word at one place to each marked row.
fn join_places(words: &mut [u64], stride: usize, marks: &[u64], place: usize, word: u64)
    requires within { place < stride }
    requires few { length marks.now ≤ 2 ^ 26 }
    requires rows_in { (row : ℕ) → row < 64 * length marks.now → IsTrue (lit marks.now 0 row)
        → row * stride + stride ≤ length words.old }
    ensures { JoinsBits words.old words.new stride
        (λ row column. (nat_lt (row / 64) (length marks.now) && lit marks.now 0 row)
        && (nat_eq (column / 64) place && nat_eq (bit_at word (column % 64)) 1)) }
{
    for group in 0..marks.len() {
        join_place(words, stride, group, marks[group], place, word);
    }
}

// Joins each word of a line that has a bit on to each marked row.
fn join_some(words: &mut [u64], stride: usize, marks: &[u64], line: &[u64])
    requires narrow { length line.now ≤ stride }
    requires few { length marks.now ≤ 2 ^ 26 }
    requires rows_in { (row : ℕ) → row < 64 * length marks.now → IsTrue (lit marks.now 0 row)
        → row * stride + stride ≤ length words.old }
    ensures { JoinsBits words.old words.new stride
        (λ row column. (nat_lt (row / 64) (length marks.now) && lit marks.now 0 row)
        && (nat_lt (column / 64) (length line.now) && lit line.now 0 column)) }
{
    for place in 0..line.len() {
        if line[place] != 0 {
            join_places(words, stride, marks, place, line[place]);
        }
    }
}

// Up to so many words with a bit on, a line is joined word by word.
const FEW_WORDS: usize = 8;

// Joins a line of words to each marked row: word by word where few of its words have a bit on.
pub(crate) fn join_to_rows(words: &mut [u64], stride: usize, marks: &[u64], line: &[u64])
    requires narrow { length line.now ≤ stride }
    requires few { length marks.now ≤ 2 ^ 26 }
    requires rows_in { (row : ℕ) → row < 64 * length marks.now → IsTrue (lit marks.now 0 row)
        → row * stride + stride ≤ length words.old }
    ensures { JoinsBits words.old words.new stride
        (λ row column. (nat_lt (row / 64) (length marks.now) && lit marks.now 0 row)
        && (nat_lt (column / 64) (length line.now) && lit line.now 0 column)) }
{
    if count_some(line) <= FEW_WORDS {
        join_some(words, stride, marks, line);
    } else {
        join_rows(words, stride, marks, line);
    }
}
