// What a file of words says.
#![tactic(auto)]

ghost use Rattle.std.specs.Prelude.{◌≡◌, ◌*◌, ◌≤◌, length, take};
ghost use Rattle.word_file.specs.WordFile.{is_word_file, file_words};

// Whether a file holds so many words.
#[tactic(auto, unfolding(crate::specs::WordFile::is_word_file))]
pub fn is_word_file(file: &[u8], count: usize) -> bool
    requires { count ≤ 12 }
    ensures { result ≡ is_word_file count file.now }
{
    let digits = 8 * count;
    file.len() == digits + 1 && file[digits] == b'\n' && hexadecimal::are_hex(file, 0, digits)
}

// The words of such a file, in front of the array.
pub fn file_words(file: &[u8], count: usize) -> [u8; 64]
    requires { (count ≤ 12) × (8 * count ≤ length file.now) }
    ensures { (length result ≡ 64) × (take (4 * count) result ≡ file_words count file.now) }
{
    let mut words = [0; 64];
    for i in 0..count {
        word::put_nat(&mut words, 4 * i, hexadecimal::hex_at(file, 8 * i, 8));
    }
    words
}
