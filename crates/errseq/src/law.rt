//! What an error word answers is what the record of its events answers.

ghost use Rattle.errseq.specs.Events.{AnswersAsRecorded};

/// Over any list of recordings, looks and opens, a look answers as the record of events says, where fewer recordings
/// raised the counter since the handle's last look or open than the counter has values. It runs nothing.
pub fn answers_as_recorded()
    ensures { AnswersAsRecorded }
{}
