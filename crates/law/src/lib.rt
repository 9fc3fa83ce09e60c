// The law over whole runs of a holder.
#![tactic(auto)]

ghost use Rattle.law.specs.Run.{RunsLawful};

// The theorem that every run of a holder, over any store and whatever is on it at first, obeys the law: each call answers as is laid down,
// the questions by the slate; and whenever power ends, the page that the slate shows is found.
pub fn every_run_is_lawful()
    ensures { RunsLawful }
{}
