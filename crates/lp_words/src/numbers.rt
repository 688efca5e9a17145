// Numbers in words, and the names of modules.
ghost use Rattle.std.specs.Prelude.{◌≡◌, ◌≤◌};
ghost use Rattle.std.specs.List.{list_all};
ghost use Rattle.lp_words.specs.Words.{is_letter, is_word_byte, is_module_name, is_digit, number_of, number_between};

fn is_letter(byte: u8) -> bool
    ensures { result ≡ is_letter byte }
{
    (65 <= byte && byte <= 90) || (97 <= byte && byte <= 122)
}

fn is_word_byte(byte: u8) -> bool
    ensures { result ≡ is_word_byte byte }
{
    is_letter(byte) || (48 <= byte && byte <= 57) || byte == 95
}

fn are_word_bytes(bytes: &[u8]) -> bool
    ensures { result ≡ list_all is_word_byte bytes.now }
{
    bytes.iter().all(|byte| is_word_byte(*byte))
}

/// Whether a word is a module's name.
#[tactic(auto, unfolding(crate::specs::Words::is_module_name))]
pub fn is_module_name(name: &[u8]) -> bool
    ensures { result ≡ is_module_name name.now }
{
    let first = if name.is_empty() { 0 } else { name[0] };
    is_letter(first) && are_word_bytes(name) && name.len() <= 64
}

fn is_digit(byte: u8) -> bool
    ensures { result ≡ is_digit byte }
{
    48 <= byte && byte <= 57
}

fn are_digits(bytes: &[u8]) -> bool
    ensures { result ≡ list_all is_digit bytes.now }
{
    bytes.iter().all(|byte| is_digit(*byte))
}

// The number that 1 to 9 digits write.
#[tactic(auto, unfolding(crate::specs::Words::number_of))]
fn number_of(text: &str) -> Option<u32>
    ensures { result ≡ number_of text.now }
{
    if 1 <= text.len() && text.len() <= 9 && are_digits(text.as_bytes()) {
        text.parse::<u32>().ok()
    } else {
        None
    }
}

/// The number that 1 to 9 digits write, where it is from `least` to `most`.
#[tactic(auto, unfolding(crate::specs::Words::number_between))]
pub fn number_between(text: &str, least: u32, most: u32) -> Option<u32>
    ensures { result ≡ number_between least most text.now }
{
    match number_of(text) {
        None => None,
        Some(number) => {
            if number < least || most < number {
                None
            } else {
                Some(number)
            }
        }
    }
}
