// Operators on words, with answers worked out from the standard by hand.

use rst_word::{BinaryOp, UnaryOp, Word};
use std::rt::HostRuntime;

#[test]
fn quotients_and_remainders_cut_towards_zero(rt: HostRuntime) {
    let two = Word::new(32, true, 2);
    let minus_seven = Word::unary(UnaryOp::Minus, Word::new(32, true, 7));
    assert_eq!(rt; minus_seven.value, 4_294_967_289);
    assert_eq!(rt;
        Word::binary(BinaryOp::Div, minus_seven, two),
        Word::new(32, true, 4_294_967_293)
    );
    assert_eq!(rt;
        Word::binary(BinaryOp::Rem, minus_seven, two),
        Word::new(32, true, 4_294_967_295)
    );
    let unsigned_two = Word::new(32, false, 2);
    assert_eq!(rt;
        Word::binary(BinaryOp::Div, minus_seven, unsigned_two),
        Word::new(32, false, 2_147_483_644)
    );
    let least = Word::new(64, true, 1 << 63);
    let minus_one = Word::new(64, true, u64::MAX);
    assert_eq!(rt; Word::binary(BinaryOp::Div, least, minus_one), least);
    assert_eq!(rt;
        Word::binary(BinaryOp::Rem, least, minus_one),
        Word::new(64, true, 0)
    );
}

#[test]
fn shifts_fill_by_the_sign(rt: HostRuntime) {
    let one = Word::new(32, true, 1);
    let signed = Word::new(8, true, 0x80);
    let unsigned = Word::new(8, false, 0x80);
    assert_eq!(rt;
        Word::binary(BinaryOp::ArithShr, signed, one),
        Word::new(8, true, 192)
    );
    assert_eq!(rt;
        Word::binary(BinaryOp::ArithShr, unsigned, one),
        Word::new(8, false, 64)
    );
    assert_eq!(rt;
        Word::binary(BinaryOp::Shr, signed, one),
        Word::new(8, true, 64)
    );
    assert_eq!(rt;
        Word::binary(BinaryOp::Shl, signed, one),
        Word::new(8, true, 0)
    );
    let minus_one = Word::new(64, true, u64::MAX);
    assert_eq!(rt;
        Word::binary(BinaryOp::ArithShr, signed, minus_one),
        Word::new(8, true, 255)
    );
    assert_eq!(rt;
        Word::binary(BinaryOp::ArithShl, signed, minus_one),
        Word::new(8, true, 0)
    );
}

#[test]
fn sums_and_comparisons_work_at_one_width(rt: HostRuntime) {
    let four = Word::new(4, false, 15);
    let five = four.extend(5, false);
    assert_eq!(rt;
        Word::binary(BinaryOp::Add, four, four),
        Word::new(4, false, 14)
    );
    assert_eq!(rt;
        Word::binary(BinaryOp::Add, five, five),
        Word::new(5, false, 30)
    );
    assert_eq!(rt;
        Word::binary(BinaryOp::Sub, Word::new(4, true, 1), Word::new(4, true, 3)),
        Word::new(4, true, 14)
    );
    assert_eq!(rt;
        Word::binary(
            BinaryOp::Mul,
            Word::new(64, false, u64::MAX),
            Word::new(64, false, u64::MAX)
        ),
        Word::new(64, false, 1)
    );
    let signed = Word::new(4, true, 15);
    let one = Word::new(4, true, 1);
    assert_eq!(rt;
        Word::binary(BinaryOp::Lt, signed, one),
        Word::new(1, false, 1)
    );
    assert_eq!(rt;
        Word::binary(BinaryOp::Lt, four, one),
        Word::new(1, false, 0)
    );
    assert_eq!(rt;
        Word::binary(BinaryOp::Ge, signed, four),
        Word::new(1, false, 1)
    );
    assert_eq!(rt;
        Word::binary(BinaryOp::Xnor, signed, one),
        Word::new(4, true, 1)
    );
}

#[test]
fn bits_are_taken_and_joined(rt: HostRuntime) {
    let word = Word::new(8, true, 0b1010_0110);
    assert_eq!(rt; word.select(4, 4), Word::new(4, false, 0b1010));
    assert_eq!(rt; word.truncate(4), Word::new(4, true, 0b0110));
    assert_eq!(rt;
        word.extend(12, true),
        Word::new(12, true, 0b1111_1010_0110)
    );
    assert_eq!(rt; word.extend(12, false), Word::new(12, false, 0b1010_0110));
    assert_eq!(rt;
        Word::concat2(word, Word::new(1, false, 1)),
        Word::new(9, false, 0b1_0100_1101)
    );
    assert_eq!(rt; Word::unary(UnaryOp::Xor, word), Word::new(1, false, 0));
    assert_eq!(rt; Word::unary(UnaryOp::Nand, word), Word::new(1, false, 1));
    assert_eq!(rt;
        Word::unary(UnaryOp::Invert, word),
        Word::new(8, true, 0b0101_1001)
    );
    assert_eq!(rt; Word::unary(UnaryOp::Not, word), Word::new(1, false, 0));
    assert!(rt; word.is_true());
    assert_eq!(rt; word.number(), -90);
}
