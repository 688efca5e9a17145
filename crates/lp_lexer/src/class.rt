ghost use Rattle.std.specs.Prelude.{◌≡◌, ◌≤◌, ◌<◌, length, codes, All, IsTrue, take, slice_index};
ghost use Rattle.lp_lexer.specs.Bytes.{is_one_of, is_in, run};

#[derive(Clone, Copy)]
pub enum Class {
    Blank,
    Lower,
    Upper,
    Digit,
    Word,
    Symbol,
    Alone,
    Escaped,
    Line,
    Inside,
}

// The byte is one of these.
fn one_of(set: &[u8], b: u8) -> bool
    ensures { result ≡ is_one_of set.now b }
{
    for x in set {
        if *x == b {
            return true;
        }
    }
    false
}

#[tactic(auto, unfolding(crate::specs::Bytes::is_in))]
pub fn is_in(class: Class, b: u8) -> bool
    ensures { result ≡ is_in class b }
{
    match class {
        Class::Blank => one_of(b" \t\n\r", b),
        Class::Lower => b >= 97 && b <= 122,
        Class::Upper => b >= 65 && b <= 90 || b == 95,
        Class::Digit => b >= 48 && b <= 57,
        Class::Word => { is_in_word(b) }
        Class::Symbol => one_of(b"+-*/^<>=~@#$&:", b),
        Class::Alone => one_of(b",;!", b),
        Class::Escaped => one_of(b"\\\"nt", b),
        Class::Line => b != 10,
        Class::Inside => b >= 32 && b <= 126 || b == 9 || b == 13,
    }
}

#[tactic(auto, unfolding(crate::specs::Bytes::is_in))]
fn is_in_word(b: u8) -> bool
    ensures { result ≡ is_in Class.Word b }
{
    b >= 97 && b <= 122 || b >= 65 && b <= 90 || b == 95 || b >= 48 && b <= 57 || b == 39 || b == 63
}

// How many bytes at the front are of the class.
pub fn run_len(class: Class, bytes: &[u8]) -> usize
    ensures run { result ≡ run class bytes.now }
    ensures within { result ≤ length bytes.now }
    ensures each { All (λ b. IsTrue (is_in class b)) (take result bytes.now) }
    ensures some { IsTrue (is_in class (slice_index bytes.now 0)) → 0 < length bytes.now → 0 < result }
{
    let mut n = 0;
    while n < bytes.len() && is_in(class, bytes[n]) {
        n += 1;
    }
    n
}
