// What the grammar of records says of whole records, as contracts of functions that do nothing.
ghost use Rattle.ori_record.specs.Laws.{OneRecord, OneSpelling, OwnAreWritable, SpelledAreOwn, SpelledAreWritable};
ghost use Rattle.ori_record.specs.Laws.{SpelledSize};

/// One record with its bags has one spelling, and no two records of one identifier have the same bytes, nor one record
/// with other bags.
pub fn one_spelling()
    ensures spelling { OneSpelling }
    ensures reading { OneRecord }
{}

/// The fields of a record that bytes spell have names and values as a record may have them, and the bytes are as many
/// as the record's size says, and those of its bags.
pub fn spelled_record()
    ensures own { SpelledAreOwn }
    ensures size { SpelledSize }
{}

/// A record whose fields are as a record may have them, and whose size is below 2^32, can be written without bags.
pub fn writable_record()
    ensures { OwnAreWritable }
{}

/// A record and bags that bytes spell, as those that were read, can be written.
pub fn spelled_writable()
    ensures { SpelledAreWritable }
{}
