//! The laws of the model, each the contract of a function that does nothing: whoever stands on the
//! model may use them.

ghost use Rattle.lfs_model.specs.Laws.{OneEnd, OneOutcome, SomeOutcome, ProgramSteps, NewIsSound, CallsKeep, RunsKeep, LineRunsKeep, PendingIsSound, ReadsLeave, LeastNumber, LeastHandle, NeedOfChange, NeedOfLoss, NeedOfNameLess, NeedOfCut, NeedOfRename, NeedOfRenameOver, RenameHasSpace, DropKeeps, LastIsPending, OneLine, LinesInTurn};

/// In a sound state a walk has exactly one end.
pub fn walks_have_one_end()
    ensures { OneEnd }
{}

/// A call has at most one outcome.
pub fn calls_have_one_outcome()
    ensures { OneOutcome }
{}

/// In a sound state a call has an outcome.
pub fn calls_have_an_outcome()
    ensures { SomeOutcome }
{}

/// What the plain program answers is a run of steps.
pub fn the_program_steps()
    ensures { ProgramSteps }
{}

/// A new volume is sound.
pub fn new_volumes_are_sound()
    ensures { NewIsSound }
{}

/// Every call keeps a state sound, whatever it answers.
pub fn calls_keep_states_sound()
    ensures { CallsKeep }
{}

/// Every state that a run of calls comes to is sound.
pub fn runs_keep_states_sound()
    ensures { RunsKeep }
{}

/// Every state that the lines of a script come to is sound.
pub fn scripts_keep_states_sound()
    ensures { LineRunsKeep }
{}

/// What a mount finds after a stop in a run is sound.
pub fn pending_states_are_sound()
    ensures { PendingIsSound }
{}

/// A call that only reads, or commits, or cleans, leaves the state.
pub fn reads_leave_the_state()
    ensures { ReadsLeave }
{}

/// What a mount finds after a stop, the nodes without a name gone and no handle open, is sound.
pub fn dropping_keeps_states_sound()
    ensures { DropKeeps }
{}

/// The least number is free, and no number from 1 up to it is.
pub fn least_number_is_least()
    ensures { LeastNumber }
{}

/// The least handle is free, and no handle below it is.
pub fn least_handle_is_least()
    ensures { LeastHandle }
{}

/// A changed node changes the need by what it costs.
pub fn need_of_a_change()
    ensures { NeedOfChange }
{}

/// A node less takes what it cost from the need.
pub fn need_of_a_loss()
    ensures { NeedOfLoss }
{}

/// A name less never adds to the need.
pub fn need_of_a_name_less()
    ensures { NeedOfNameLess }
{}

/// A file that is cut, or filled with zeros, costs no more: `truncate` is never refused for space.
pub fn need_of_a_cut()
    ensures { NeedOfCut }
{}

/// A rename to a free name in the same directory leaves the need as it is, and one onto a name that
/// is there adds nothing to it.
pub fn need_of_a_rename()
    ensures free { NeedOfRename }
    ensures over { NeedOfRenameOver }
{}

/// A rename within one directory is never refused for space, whether its new name is there or not.
pub fn renames_in_one_directory_have_space()
    ensures { RenameHasSpace }
{}

/// The last state of a run is pending, so there is always one that a stop may leave.
pub fn the_last_state_is_pending()
    ensures { LastIsPending }
{}

/// A text of a script spells at most one line, so a line makes one call.
pub fn texts_have_one_line()
    ensures { OneLine }
{}

/// The lines of a script come one after the other.
pub fn lines_in_turn()
    ensures { LinesInTurn }
{}
