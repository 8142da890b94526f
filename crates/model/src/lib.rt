// The definitions of the round stand in specs/. Each function here states one theorem about them, by its contract.
#![tactic(auto)]

ghost use Rattle.model.specs.Theorems.{EqualTreesAreOne, NextNamesAsTold, StepsAsTold, MarkedExactlyAtConflicts, OutcomeIsSafe, NoRivalDoesMore, OutcomeIsWellFormed};
ghost use Rattle.model.specs.Edits.{EditsKeepTheForm, EditsAreFound, EditsLeaveTheRest, EditsAreCounted, EditsBringNoMarks, EditsStayShallow, PutsObey, StrikesObey};
ghost use Rattle.model.specs.Faults.{NoFaultIsObeying};
ghost use Rattle.model.specs.Worked.{WorkedRoundsComeOut, WorkedRoundsAreReady};

pub fn equal_trees_are_one()
    ensures { EqualTreesAreOne }
{}

pub fn no_fault_is_obeying()
    ensures { NoFaultIsObeying }
{}

pub fn edits_keep_the_form()
    ensures { EditsKeepTheForm }
{}

pub fn edits_are_found()
    ensures { EditsAreFound }
{}

pub fn edits_leave_the_rest()
    ensures { EditsLeaveTheRest }
{}

pub fn edits_are_counted()
    ensures { EditsAreCounted }
{}

pub fn edits_bring_no_marks()
    ensures { EditsBringNoMarks }
{}

pub fn edits_stay_shallow()
    ensures { EditsStayShallow }
{}

pub fn puts_obey()
    ensures { PutsObey }
{}

pub fn strikes_obey()
    ensures { StrikesObey }
{}

pub fn next_names_as_told()
    ensures { NextNamesAsTold }
{}

pub fn steps_as_told()
    ensures { StepsAsTold }
{}

pub fn marked_exactly_at_conflicts()
    ensures { MarkedExactlyAtConflicts }
{}

pub fn outcome_is_safe()
    ensures { OutcomeIsSafe }
{}

pub fn no_rival_does_more()
    ensures { NoRivalDoesMore }
{}

pub fn outcome_is_well_formed()
    ensures { OutcomeIsWellFormed }
{}

pub fn worked_rounds_come_out()
    ensures { WorkedRoundsComeOut }
{}

pub fn worked_rounds_are_ready()
    ensures { WorkedRoundsAreReady }
{}
