//! The laws by which the answers of all seats are one history.

ghost use Rattle.spin_seat.specs.Laws.{AnswersStand, CleanByLanes, ReplayIsOne, WeavesAreLegal};
ghost use Rattle.spin_seat.specs.Renewals.{AnswersAreRenamed, RenewalsGoOn, ValidCommandsStayNamed};

/// The laws of seats. Rows have one replay, so seats that know the same rows have the same state.
/// What is right in a front is right in every log that the front begins. A log is clean where each
/// lane's rows were accepted in the front of its pen. And of lanes that began at one front, the
/// answers of all, as one list in the order of places, are a legal history from the replay of that
/// front to that of the log. It does nothing.
pub fn seats_answer_one_history()
    ensures replay { ReplayIsOne }
    ensures front { AnswersStand }
    ensures clean { CleanByLanes }
    ensures weave { WeavesAreLegal }
{}

/// The laws of renewals. What is legal from a state is legal, under the other numbers, from each state
/// that differs from it in the numbers of its bindings alone. So what was answered before a renewal and
/// what was answered after it are together one legal history under the numbers before, as long as these
/// stay below 65,535; and it leads to a state that differs from the one after it in these numbers alone.
/// So it goes on over any number of renewals. What a command names has to be named under those numbers
/// too, and so it is of each valid command. It does nothing.
pub fn renewals_go_on()
    ensures answers { AnswersAreRenamed }
    ensures whole { RenewalsGoOn }
    ensures named { ValidCommandsStayNamed }
{}
