//! The laws of journals: what is defined of reading and of judging leaves one answer.
ghost use Rattle.tj_core.specs.Journals.Laws.{EventsAreOne, FirstFaultIsOne};
ghost use Rattle.tj_core.specs.Journals.Laws.{EventsHaveNoFault, JudgingIsOne};

/// The lines of a journal are those of one list of events at most, or have one first fault at most,
/// and not both.
pub fn one_reading()
    // Law: a list of lines is that of one list of events at most.
    ensures events { EventsAreOne }
    // Law: it has one first fault at most.
    ensures fault { FirstFaultIsOne }
    // Law: it hasn't both.
    ensures not_both { EventsHaveNoFault }
{}

/// The events of a journal are judged with one text at most, and with one mark.
#[tactic(auto, using(crate::proofs::Journals::OneJudging::judging_one))]
pub fn one_judging()
    // Law: events have one text and one mark at most.
    ensures { JudgingIsOne }
{}
