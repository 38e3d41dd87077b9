// Numbers in a sheet are low byte first.
ghost use Rattle.std.specs.Prelude.{◌≡◌, ℕ, ◌+◌, ◌*◌, ◌<◌, ◌≤◌, List, length, slice_index_or};
ghost use Rattle.sheet.specs.Layout.{word16, word32, word64};

// A number of a sheet, by how many bytes it takes and which number the bytes at an offset spell.
pub(crate) trait Word: Copy {
    ghost WIDTH: { ℕ };

    ghost spelled: { List ℕ → ℕ → Self };

    const WIDTH: usize;

    fn read(bytes: &[u8], at: usize) -> Self
        requires { at + WIDTH ≤ length bytes.now }
        ensures { result ≡ spelled bytes.now at };
}

impl Word for u16 {
    ghost WIDTH = { 2 };

    ghost spelled = { word16 };

    const WIDTH: usize = 2;

    fn read(bytes: &[u8], at: usize) -> u16 {
        u16::from_le_bytes(*bytes[at..].first_chunk().unwrap())
    }
}

impl Word for u32 {
    ghost WIDTH = { 4 };

    ghost spelled = { word32 };

    const WIDTH: usize = 4;

    fn read(bytes: &[u8], at: usize) -> u32 {
        u32::from_le_bytes(*bytes[at..].first_chunk().unwrap())
    }
}

impl Word for u64 {
    ghost WIDTH = { 8 };

    ghost spelled = { word64 };

    const WIDTH: usize = 8;

    fn read(bytes: &[u8], at: usize) -> u64 {
        u64::from_le_bytes(*bytes[at..].first_chunk().unwrap())
    }
}

// Fills `words` with the numbers that begin at an offset.
pub(crate) fn read_words<W: Word>(bytes: &[u8], at: usize, words: &mut [W])
    requires { at + W.WIDTH * length words.old ≤ length bytes.now }
    ensures long { length words.new ≡ length words.old }
    ensures each { (k : ℕ) (none : W) → k < length words.old → slice_index_or words.new k none ≡ W.spelled bytes.now (at + W.WIDTH * k) }
{
    for k in 0..words.len() {
        words[k] = W::read(bytes, at + W::WIDTH * k);
    }
}
