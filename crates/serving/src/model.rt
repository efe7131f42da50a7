//! Runs by the rules of the abstract disk.

ghost use Rattle.std.specs.Prelude.{ℕ, List};
ghost use Rattle.tsd_model.specs.declared.requests.Request.{Request};
ghost use Rattle.serving.specs.ModelRules.{Placed, model_rules, IsModelRun};
ghost use Rattle.serving.specs.Runs.{Run};
ghost use Rattle.serving.specs.Voice.{Voice, spoken};

/// A run by the rules of the abstract disk has the replies and the state of the model's own run, for some places at
/// which no memory was found.
pub fn runs_of_the_model()
    /// promise: A run by the abstract disk's rules is a run of the abstract disk.
    ensures { (v : Voice) (s : Placed) (qs : List Request) (answers : List (List ℕ)) (t : Placed)
        → Run (spoken (model_rules (λ x w. Unit {0})) v) s qs answers t → IsModelRun v s qs answers t }
{}
