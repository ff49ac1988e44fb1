//! Words and picks that another program made, and the key stream of RFC 8439.

use crate::SEED;
use crate::same::same;
use lks_draw::{Draws, OutOfMemory};
use rand_chacha::ChaCha20Rng;
use rand_chacha::rand_core::{Rng, SeedableRng};

/// RFC 8439, A.1, test vectors 1 and 2: the first two blocks of the key stream of the zero key.
const ZERO_KEY_STREAM: [u32; 32] = [
    0xade0_b876,
    0x903d_f1a0,
    0xe56a_5d40,
    0x28bd_8653,
    0xb819_d2bd,
    0x1aed_8da0,
    0xccef_36a8,
    0xc70d_778b,
    0x7c59_41da,
    0x8d48_5751,
    0x3fe0_2477,
    0x374a_d8b8,
    0xf4b8_436a,
    0x1ca1_1815,
    0x69b6_87c3,
    0x8665_eeb2,
    0xbee7_079f,
    0x7a38_5155,
    0x7c97_ba98,
    0x0d08_2d73,
    0xa029_0fcb,
    0x6965_e348,
    0x3e53_c612,
    0xed7a_ee32,
    0x7621_b729,
    0x434e_e69c,
    0xb033_71d5,
    0xd539_d874,
    0x281f_ed31,
    0x45fb_0a51,
    0x1f0a_e1ac,
    0x6f4d_794b,
];

/// Draws take their words from this generator.
#[test]
fn words_of_the_zero_key(rt: HostRuntime) {
    let mut generator = ChaCha20Rng::from_seed([0; 32]);
    for (at, word) in ZERO_KEY_STREAM.iter().enumerate() {
        same(&rt, &generator.next_u32(), word, &at);
    }
}

// Where `next(u32::MAX)` gives this, the next word is 1 more, unless it is 0.
fn next_whole(draws: &mut Draws) -> u32 {
    draws.next(u32::MAX) + 1
}

/// A label, a number, and the first words under them.
const WORDS: [(u8, u32, [u32; 4]); 6] = [
    (1, 1, [0xa491_0d84, 0x3bab_75de, 0x7382_20d6, 0x1edb_b0ef]),
    (2, 1, [0x8274_4e46, 0x0100_6c31, 0xb3f9_783b, 0xfb28_38a6]),
    (
        3,
        65537,
        [0xcde0_77a8, 0x98f7_cf43, 0x290e_3200, 0xbff3_73f6],
    ),
    (4, 1, [0xea9a_1f25, 0x8e12_02d0, 0x9733_8b97, 0x9960_070d]),
    (
        5,
        65537,
        [0xeb34_5fed, 0xab81_86c3, 0x5f85_7143, 0x1618_7498],
    ),
    (6, 0, [0x52fa_73e0, 0xf2a4_a390, 0xefbd_ac33, 0xa51a_88e1]),
];

#[test]
fn words_of_draws(rt: HostRuntime) {
    for &(label, number, words) in WORDS.iter() {
        let mut draws = Draws::new(SEED, label, number);
        for word in words {
            same(&rt, &next_whole(&mut draws), &word, &label);
        }
    }
    same(
        &rt,
        &Draws::new(SEED, 3, 131_073).next(100),
        &2,
        &"Draws::new",
    );
}

#[test]
fn picks(rt: HostRuntime) -> Result<(), OutOfMemory> {
    let mut draws = Draws::new(SEED, 1, 1);
    // A list that is short enough is taken whole, and no word with it.
    for (list, n) in [([7, 8].as_slice(), 3_usize), (&[7, 8], 2), (&[], 0)] {
        same(
            &rt,
            &draws.pick(rt.alloc(), list, n)?.as_slice(),
            &list,
            &"draws",
        );
    }
    let members = draws.pick(rt.alloc(), [2, 3, 4, 5, 6, 7].as_slice(), 3)?;
    same(&rt, &members.as_slice(), &[5, 3, 4].as_slice(), &"members");
    same(&rt, &next_whole(&mut draws), &0x1edb_b0ef, &"next_whole");
    let members = Draws::new(SEED, 1, 1).pick(rt.alloc(), [7, 8].as_slice(), 0)?;
    assert!(rt; members.is_empty());
    Ok(())
}
