// Whether what a row wrote is what it has to write.

/// The word that stands for any address.
const ANY_ADDRESS: &str = "A";

/// The character that stands for any digit of an address, as in `0x10002___` for any place in page 2.
const ANY_DIGIT: u8 = b'_';

/// Whether a text is the expected one, byte for byte, but for the words that stand for an address.
pub fn is_expected(expected: &str, came: &str) -> bool {
    let mut lines = came.split('\n');
    for wanted in expected.split('\n') {
        let Some(line) = lines.next() else {
            return false;
        };
        if !is_line(wanted, line) {
            return false;
        }
    }
    lines.next().is_none()
}

fn is_line(expected: &str, came: &str) -> bool {
    let mut words = came.split(' ');
    for wanted in expected.split(' ') {
        let Some(word) = words.next() else {
            return false;
        };
        if !is_word(wanted, word) {
            return false;
        }
    }
    words.next().is_none()
}

fn is_word(expected: &str, came: &str) -> bool {
    came == expected || is_address(came) && (expected == ANY_ADDRESS || is_in_page(expected, came))
}

// Whether an address is the expected one but for digits that are left open.
fn is_in_page(expected: &str, came: &str) -> bool {
    expected.len() == came.len()
        && expected
            .bytes()
            .zip(came.bytes())
            .all(|(wanted, digit)| wanted == digit || wanted == ANY_DIGIT)
}

// Whether a word is `0x` and eight hexadecimal digits in lower case.
fn is_address(word: &str) -> bool {
    match word.strip_prefix("0x") {
        None => false,
        Some(digits) => digits.len() == 8 && digits.bytes().all(is_digit),
    }
}

fn is_digit(byte: u8) -> bool {
    byte.is_ascii_digit() || b'a' <= byte && byte <= b'f'
}
