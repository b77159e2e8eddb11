// Words in the form of a label.
ghost use Rattle.std.specs.Prelude.{◌≡◌};
ghost use Rattle.smpte_tc.specs.Words.{fits as has_form, is_letter as stands_for, is_label_form as has_label_form};

/// Whether bytes have the form of a label, eleven bytes `dd:dd:dd:dd` or `dd:dd:dd;dd` with digits
/// `d` (SMPTE ST 12-1).
pub fn is_label_form(word: &[u8]) -> bool
    ensures { result ≡ has_label_form word.now }
{
    fits(b"dd:dd:dd:dd", word) || fits(b"dd:dd:dd;dd", word)
}

// Whether bytes have a form, letter by letter.
fn fits(form: &[u8], bytes: &[u8]) -> bool
    ensures { result ≡ has_form form.now bytes.now }
{
    match form {
        [] => bytes.is_empty(),
        [letter, form @ ..] => match bytes {
            [] => false,
            [byte, bytes @ ..] => is_letter(*letter, *byte) && fits(form, bytes),
        },
    }
}

// Whether a byte is what a letter of a form stands for: `d` for a digit, another letter for itself.
fn is_letter(letter: u8, byte: u8) -> bool
    ensures { result ≡ stands_for letter byte }
{
    if letter == b'd' {
        byte.is_ascii_digit()
    } else {
        byte == letter
    }
}
