// What holds of the definitions. Each law is the contract of a function without a body.

ghost use Rattle.lp_lexer.specs.Laws.{HasOneReading, HasReading, HasLongest, NestsComments, TakesLongest};

/// A text has at most one list of tokens or one first fault, and never both.
pub fn one_reading()
    ensures { HasOneReading }
{}

/// A text has a list of tokens or a first fault.
pub fn some_reading()
    ensures { HasReading }
{}

/// Comments nest: one ends at the `*/` that closes it when all inside are closed, and where there is none it has no end.
pub fn comments_nest()
    ensures { NestsComments }
{}

/// At each place of a text stands the longest token of all kinds, or the longest gap (blanks, or one comment), or there is neither. `Forms` says
/// which bytes are a token of a kind and which a gap, and `Stands` what the longest is; the tests of the lexer find exactly what it says. So each
/// token of a reading is the longest at its place. `Stands` also says what a fault is:
///
/// - a number past 9223372036854775807 is the longest token;
/// - a bad byte begins no token and no gap, whatever follows it, or stands in a string that has a quote to close it on its line, as the first
///   byte there that is neither plain nor the `\` of an escape;
/// - an open string is a quote that no quote on its line closes, an open comment a `/*` at which no comment of the grammar begins.
///
/// One rule is not of a token by itself: no byte of a symbol begins a `/*` of the text, its last one neither. The bound of numbers does not take
/// part in what is longest: no number is cut short so that it fits.
pub fn tokens_are_longest()
    ensures exactly { TakesLongest }
    ensures each { HasLongest }
{}
