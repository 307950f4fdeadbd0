// What follows from how a call ends.
ghost use Rattle.unitc_call.specs.Laws.{OtherWordsAreRefused, TasksAreCompiled, TenIsOfTheSink, TwoIsOfOtherWords};

/// Where words ask for a task and nothing fails outside, the task is compiled, or memory ran out.
pub fn tasks_are_compiled()
    ensures { TasksAreCompiled }
{}

/// Words of another form change nothing. Where nothing fails outside the call says that they have one, or memory ran
/// out.
pub fn other_words_are_refused()
    ensures { OtherWordsAreRefused }
{}

/// Which statuses have one cause: 2 is that of words of another form, 10 that of a sink that failed.
pub fn statuses_have_causes()
    ensures words { TwoIsOfOtherWords }
    ensures sink { TenIsOfTheSink }
{}
