//! Laws over the definitions: each function's clause is the law, and its body does nothing.

ghost use Rattle.ber_layout.specs.Laws.{ReadingIsSound, ReadingIsComplete, WritingSays, WritingIsReadAgain, ShortValuesFit};

/// What is read of a layout is what the octets say.
pub fn reading_is_sound()
    ensures { ReadingIsSound }
{}

/// What octets say by a clear layout is read.
pub fn reading_is_complete()
    ensures { ReadingIsComplete }
{}

/// What is written says the value.
pub fn writing_says()
    ensures { WritingSays }
{}

/// What is written is read again.
pub fn writing_is_read_again()
    ensures { WritingIsReadAgain }
{}

/// A value in its ranges fits where all that is written of it is short.
pub fn short_values_fit()
    ensures { ShortValuesFit }
{}
