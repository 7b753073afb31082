// Arrays of 16 elements, of which the first n count: filled with words, written as bytes; limits as arrays.
#![tactic(auto)]

ghost use Rattle.std.specs.Prelude.{◌≡◌, map, ◌*◌, ◌≤◌, length, pos};
ghost use Rattle.word.specs.Word.{word_at, words_out};
ghost use Rattle.array.specs.Arrays.{Filled, WordsTo};

// A low and a high limit for each command.
#[derive(Clone, Copy)]
pub struct Limits {
    pub lower: [i64; 16],
    pub upper: [i64; 16],
}

// The first n words of a part of the image, of the state or of the start.
pub fn words_of(s: &[u8], n: usize) -> [i64; 16]
    requires { (n ≤ 16) × (4 * n ≤ length s.now) }
    ensures { Filled (pos 0) n (λ i. word_at s.now (4 * i)) result × WordsTo n result }
{
    let mut r = [0; 16];
    for i in 0..n {
        r[i] = word::word_at(s, 4 * i);
    }
    r
}

// The bounds are written, four bytes each without a sign. word::put_words does so for signed words: a trait over both would put a map into what
// each of its callers promises.
pub fn put_bounds(out: &mut [u8], bounds: &[u64])
    requires { length out.old ≡ 4 * length bounds.now }
    ensures { out.new ≡ words_out (map pos bounds.now) }
{
    for (i, bound) in bounds.iter().enumerate() {
        word::put_nat(out, 4 * i, *bound);
    }
}
