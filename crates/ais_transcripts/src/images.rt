// Images as words, and as the bytes that are lent.
use words::Unit;

// Source 000's Table 19. Tables 20 and 22 and Figure 13 are the same with 01's corrections.
pub const TABLE: [u32; 37] = [
    0x4150_4954,
    0x5853_5903,
    0x5853_5901,
    0x1080_0000,
    0x0000_0040,
    0x0180_2028,
    0x0280_2428,
    0x0200_2228,
    0x0188_4069,
    0x0200_032A,
    0x020C_0277,
    0x0288_4068,
    0x028C_1FDB,
    0x0208_4068,
    0x6C6E_10CD,
    0x1044_2641,
    0x003C_2C6E,
    0x45B0_6C6E,
    0x2C6E_00B4,
    0x8C6E_008A,
    0xEFC0_8000,
    0x5853_5902,
    0x0E85_A97B,
    0xFFFF_FFA8,
    0x5853_5901,
    0x1080_0040,
    0x0000_000C,
    0x0000_000A,
    0x0000_000B,
    0x0000_000C,
    0x5853_5902,
    0x8434_A250,
    0xFFFF_FFDC,
    0x5853_5906,
    0x1080_0000,
    0x0000_0002,
    0x0000_004C,
];

// Figure 13's digits from the first seek on, cut into eights as printed.
pub const EIGHTS: [u32; 14] = [
    0xFFFF_FFFA,
    0x8585_3590,
    0x1108_0004,
    0x0000_0000,
    0xC000_0000,
    0xA000_0000,
    0xB000_0000,
    0xC585_3590,
    0x2843_4A25,
    0x0FFF_FFFD,
    0xC585_3590,
    0x6108_0000,
    0x0000_0002,
    0x0000_004C,
];

// A load of 5 bytes with the checksum off.
pub const LOAD: [u32; 8] = [
    0x4150_4954,
    0x5853_5901,
    0x8000_0000,
    0x0000_0005,
    0x0403_0201,
    0xFFFF_FF05,
    0x5853_5906,
    0x8000_0000,
];

// The three words of 01's check program.
pub const CLOSE: [u32; 3] = [0x4150_4954, 0x5853_5906, 0x8000_0000];

// The load of 5 bytes, then the retired Jump.
pub const OLD: [u32; 10] = [
    0x4150_4954,
    0x5853_5901,
    0x8000_0000,
    0x0000_0005,
    0x0403_0201,
    0xFFFF_FF05,
    0x5853_5905,
    0x8000_0000,
    0x5853_5906,
    0x8000_0000,
];

// The load of 5 bytes with the checksum on, and a Request.
pub const COVERED: [u32; 12] = [
    0x4150_4954,
    0x5853_5903,
    0x5853_5901,
    0x8000_0000,
    0x0000_0005,
    0x0403_0201,
    0xFFFF_FF05,
    0x5853_5902,
    0x4513_4944,
    0xFFFF_FFE0,
    0x5853_5906,
    0x8000_0000,
];

// Writes one word; past the end nothing.
pub fn put_word(image: &mut [u8], at: usize, value: u32) {
    words::write(image, at, Unit::Four, value);
}

// Writes words one after the other, as many as there is room for.
pub fn put_words(image: &mut [u8], listed: &[u32]) {
    for (place, word) in image.chunks_exact_mut(4).zip(listed) {
        place.copy_from_slice(&word.to_le_bytes());
    }
}

// Writes words from an offset on; past the end nothing.
pub fn put_words_at(image: &mut [u8], at: usize, listed: &[u32]) {
    if let Some(rest) = image.get_mut(at..) {
        put_words(rest, listed);
    }
}

// An image of so many bytes that begins with these words, and has zeros behind them.
pub fn of_words<const N: usize>(listed: &[u32]) -> [u8; N] {
    let mut image = [0u8; N];
    put_words(&mut image, listed);
    image
}
