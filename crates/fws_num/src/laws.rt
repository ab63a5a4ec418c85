//! Laws of reading and spelling: functions that do nothing, whose clauses are for the proofs of callers.

ghost use Rattle.fws_num.specs.Numbers.{AddressesAreDotted, BehindIsShorter, DecimalsAreRead, NumbersAreDigits, PrefixesAreRead, QuadsAreDotted, SplitsBack};
ghost use Rattle.fws_num.specs.Pieces.{JoinedAreDivided, PiecesAreJoined};
ghost use Rattle.fws_num.specs.Written.{LinesAreRead, TextsAreRead, WordsAreRead};

/// What is read of a spelled number is that number.
pub fn decimals_are_read()
    ensures { DecimalsAreRead }
{}

/// What is read of a spelled address is that address, and nothing else is read.
pub fn quads_are_dotted()
    ensures { QuadsAreDotted }
{}

/// What is read of a spelled prefix is that prefix.
pub fn prefixes_are_read()
    ensures { PrefixesAreRead }
{}

/// A spelled number has digits alone, and at least one.
pub fn numbers_are_digits()
    ensures { NumbersAreDigits }
{}

/// A spelled address has digits and dots alone, and isn't empty.
pub fn addresses_are_dotted()
    ensures { AddressesAreDotted }
{}

/// A text is divided at the byte behind a front that lacks it.
pub fn splits_back()
    ensures { SplitsBack }
{}

/// What stands behind the byte at which a text is divided is shorter than the text, and the two parts
/// with the byte between are the text.
pub fn behind_is_shorter()
    ensures { BehindIsShorter }
{}

/// The pieces of a text lack the byte that divides it, and with it between them they are the text.
pub fn pieces_are_joined()
    ensures { PiecesAreJoined }
{}

/// Pieces that lack a byte are what a text of them, with that byte between, is divided into.
pub fn joined_are_divided()
    ensures { JoinedAreDivided }
{}

/// Plain words with a blank between are read as they are.
pub fn words_are_read()
    ensures { WordsAreRead }
{}

/// Lines without line feeds and without a carriage return at the end, each with a line feed behind it,
/// are read as they are.
pub fn lines_are_read()
    ensures { LinesAreRead }
{}

/// A text of lines that have plain words and no comment is read as those lines.
pub fn texts_are_read()
    ensures { TextsAreRead }
{}
