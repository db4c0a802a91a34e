// The laws of record lists, for callers to rest on.
ghost use Rattle.faces.specs.KeyLaws.{RecordLaws};

pub fn records_stand()
    ensures { RecordLaws }
{}
