//! Laws of the answers of a run. The functions do nothing when they run.

ghost use Rattle.std.specs.Prelude.{ℕ, List};
ghost use Rattle.iso_base.specs.Files.{Files};
ghost use Rattle.iso_cli.specs.OneAnswer.{HaveOneAnswer, LackWhereRefused};

/// Words and told files decide at most one refusal, and none where the files hold what the words need.
pub fn one_answer_law()
    ensures one { (files : Files) (words : List (List ℕ)) → HaveOneAnswer files words }
    ensures lack { (files : Files) (words : List (List ℕ)) → LackWhereRefused files words }
{}
