// The laws of signs, for callers to rest on.
ghost use Rattle.signs.specs.Laws.{ClassesStand, ReadingStands, ReclassingStands, SignsReadThemselves};
ghost use Rattle.signs.specs.Worked.{Worked};

// What reading and classing keep, of every row, and worked classes and rows.
pub fn signs_stand()
    ensures classes { ClassesStand }
    ensures reading { ReadingStands }
    ensures reclassing { ReclassingStands }
    ensures themselves { SignsReadThemselves }
    ensures worked { Worked }
{}
