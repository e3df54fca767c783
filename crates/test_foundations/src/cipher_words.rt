use random_words::{RandomWords, WordStream};
use std::test::*;

// Words of the first two draws under a key of zeros in stream 0, with the number of the draw and the place of the word, then one of stream 7. Those of the first
// two blocks, places 0 to 15 of the first draw, stand in RFC 8439, appendix A.1; OpenSSL's ChaCha20 gave all of them.
const WORDS: [(u64, usize, usize, u64); 9] = [
    (0, 0, 0, 0x903d_f1a0_ade0_b876),
    (0, 0, 7, 0x8665_eeb2_69b6_87c3),
    (0, 0, 8, 0x7a38_5155_bee7_079f),
    (0, 0, 15, 0x6f4d_794b_1f0a_e1ac),
    (0, 0, 32, 0xadc5_472b_7488_a6e5),
    (0, 0, 47, 0x4c09_8e86_8586_e8aa),
    (0, 1, 0, 0x0ca9_f70a_09f4_9ef2),
    (0, 1, 47, 0x2dbe_4886_089f_472a),
    (7, 0, 47, 0xad2d_fba1_3dbf_0da2),
];

// The words of a draw of a stream.
fn drawn(stream: u64, number: usize) -> RandomWords {
    let mut words = WordStream::new([0; 32], stream);
    for _ in 0..number {
        let _passed = words.draw();
    }
    words.draw()
}

// Whether the word at a place of a draw is this one, however many words are made before.
fn has_word(words: &RandomWords, place: usize, wanted: u64) -> bool {
    for count in [0, 8, 48] {
        let made = words.with_made(count);
        let is_there = place < 48 && words.or_made(&made).word(place) == wanted;
        if !is_there || made.is_some() != (count > 0) {
            return false;
        }
    }
    true
}

#[test]
fn random_words_are_those_of_the_cipher(rt: HostRuntime) {
    for (stream, number, place, wanted) in WORDS {
        assert!(rt; has_word(&drawn(stream, number), place, wanted));
    }
}
