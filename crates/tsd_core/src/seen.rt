//! What a table of grants tells of a disk that memory knows but for bytes: laws, without code.

ghost use Rattle.tsd_core.specs.Histories.{AnswersMakeRuns, RunsGrantAccess, AnswersKeepTheLaws};
ghost use Rattle.tsd_core.specs.Laws.{VerdictsAreSeen, StepsAreSeen, RepliesAreTold, RefusalsHaveForm, TargetsHaveForm};

/// Over a table that may hold more than is seen, verdicts and steps are those of the disk.
pub fn what_is_left_at_free_blocks_counts_for_nothing()
    /// promise (with step, reply): Levels left at blocks that became free count for nothing.
    ensures verdict { VerdictsAreSeen }
    ensures step { StepsAreSeen }
    ensures reply { RepliesAreTold }
{}

/// Replies have a form that lines and frames can send.
pub fn replies_have_a_form()
    /// promise (with targets): Each reply of the abstract disk has the form that lines and frames can send.
    ensures refusals { RefusalsHaveForm }
    ensures targets { TargetsHaveForm }
{}

/// What holds of requests that are answered one after another: access is by the grants of their history, what is
/// reached stays, and exactly the last pointer reclaims a block.
pub fn answers_keep_the_laws()
    ensures runs { AnswersMakeRuns }
    /// promise (with runs, laws): The laws of the abstract disk hold of requests that are answered one after another.
    ensures access { RunsGrantAccess }
    ensures laws { AnswersKeepTheLaws }
{}
