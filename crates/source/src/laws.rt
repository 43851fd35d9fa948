ghost use Rattle.source.specs.Laws.{OneAnswer, AtMost64Rows};

// What the clauses of a call come to: the rows of an answer are determined by the source's meaning
// and the inputs, and they are few.
pub fn answers_are_determined()
    ensures one { OneAnswer }
    ensures few { AtMost64Rows }
{}
