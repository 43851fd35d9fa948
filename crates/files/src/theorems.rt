ghost use Rattle.files.specs.Theorems.{OneFile, OneContent, NotBoth, OneFault, AlwaysAnswered, WrittenOpens, AlwaysStorable, CellsHoldRows, OneReason, FitOrNot, Worked};

// The format stands: bytes are the file of one content or refused with one fault, and what is written is opened again.
pub fn files_stand()
    ensures file { OneFile }
    ensures content { OneContent }
    ensures both { NotBoth }
    ensures fault { OneFault }
    ensures answered { AlwaysAnswered }
    ensures opens { WrittenOpens }
    ensures storable { AlwaysStorable }
    ensures cells { CellsHoldRows }
    ensures reason { OneReason }
    ensures fit { FitOrNot }
{}

// A file worked by hand.
pub fn worked_file()
    ensures worked { Worked }
{}
