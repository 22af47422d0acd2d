// The theorems of this crate, each carried by a function that is named as its sentence.
ghost use Rattle.rules.specs.Bite.{NoChoice, OneHistory, BadBreaks, HeldBreaks};
ghost use Rattle.rules.specs.Examples.{Marked, SeatOpens, InTableOrder};
ghost use Rattle.rules.specs.Room.{RoomForReports};
ghost use Rattle.rules.specs.Run.{StepIsLawful, RunsAreLawful};
ghost use Rattle.rules.specs.Sound.{SoundIsKept, SoundSuffices};
ghost use Rattle.rules.specs.Takes.{BookDoes};

// The worked examples, of the definitions, on a seat that can be opened; and every message's checks run in the order of their numbers.
pub fn examples_come_out()
    ensures examples { Marked }
    ensures seat { SeatOpens }
    ensures order { InTableOrder }
{}

// The law of runs: of every run from an opening, for any messages; and of one message more after any history.
pub fn runs_are_lawful()
    ensures runs { RunsAreLawful }
    ensures step { StepIsLawful }
{}

// The law leaves no choice, and wrong engines break it.
pub fn the_law_bites()
    ensures choice { NoChoice }
    ensures history { OneHistory }
    ensures wrong { BadBreaks }
    ensures held { HeldBreaks }
{}

// What an engine over a book relies on: soundness is kept and suffices, a take is a fill and a removal a kill, and the reports of a message have room.
pub fn engines_can_follow()
    ensures sound { SoundIsKept }
    ensures suffices { SoundSuffices }
    ensures book { BookDoes }
    ensures room { RoomForReports }
{}
