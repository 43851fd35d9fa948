ghost use Rattle.numbers.specs.Theorems.{Encoded, SomeBytes, OneReading, ReadAsWritten, Worked};

// The format stands: a number has one form, which is what is written, and what is read is what was written.
pub fn forms_stand()
    ensures encoded { Encoded }
    ensures some { SomeBytes }
    ensures one { OneReading }
    ensures back { ReadAsWritten }
{}

// Numbers worked by hand.
pub fn worked_numbers()
    ensures worked { Worked }
{}
